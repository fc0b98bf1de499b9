//! The number after a name, and the least of several.

ghost use Rattle.std.specs.Prelude.{◌≡◌, ◌≢◌, ◌<◌, ◌^◌, ℕ, ◌∷◌, ◌++◌, None, IfSome, decimal, get_or, nat_lt};
ghost use Rattle.sys_numbered_names.specs.Lesser.{lesser_of};

/// The lesser of two numbers above this one.
pub fn lesser(least: Option<u32>, behind: u32, number: Option<u32>) -> Option<u32>
    ensures { result ≡ lesser_of least behind number }
{
    match (least, number) {
        (None, Some(number)) if number > behind => Some(number),
        (Some(least), Some(number)) if number > behind && number < least => Some(number),
        (least, _) => least,
    }
}

/// The number that follows a name and a point, in its usual form: without a sign, and without leading zeros.
pub fn number_behind(path: &str, front: &str) -> Option<u32>
    ensures some { IfSome result (λ k. (k < 2 ^ 32) × (path.now ≡ front.now ++ (46 ∷ decimal k))) }
    ensures none { result ≡ None → (n : ℕ) → 0 < n → n < 2 ^ 32 → path.now ≢ front.now ++ (46 ∷ decimal n) }
{
    let Some(rest) = path.strip_prefix(front) else {
        return None;
    };
    match rest.strip_prefix('.') {
        Some(digits) => number_of(digits),
        None => None,
    }
}

// A number that is not 0, in its usual form.
fn number_of(digits: &str) -> Option<u32>
    ensures some { IfSome result (λ k. (k < 2 ^ 32) × (digits.now ≡ decimal k)) }
    ensures none { result ≡ None → (n : ℕ) → 0 < n → n < 2 ^ 32 → digits.now ≢ decimal n }
{
    if !is_led(digits) {
        return None;
    }
    match digits.parse::<u32>() {
        Ok(number) => Some(number),
        Err(_) => None,
    }
}

// Whether it begins with a digit that is not 0, or with what follows the digits.
fn is_led(text: &str) -> bool
    ensures { result ≡ nat_lt 48 (get_or text.now 0 0) }
{
    let bytes = text.as_bytes();
    !bytes.is_empty() && bytes[0] > 48
}

//! The tools of AOSP by whose names the program may be called.

ghost use Rattle.std.specs.Prelude.{◌≡◌, ◌≢◌, ◌↔◌, ◌++◌, ◌∷◌, ℕ, List, [], IsTrue, IfSome, None, get_or, map};
ghost use Rattle.words_orders.specs.declared.answers.Answer.{Answer};
ghost use Rattle.words_tools.specs.declared.orders.Orders.{Orders};
ghost use Rattle.words_tools.specs.Tools.{AsksOrders, CallsNone, IsBehindAs, IsCalled, IsFolder, IsLastPart, tool_name};
ghost use Rattle.words_tools.specs.Tools.{wrong_words_status};

use std::convert::AsStr;

/// A tool whose words are read as it reads them.
#[derive(Clone, Copy)]
pub enum Tool {
    Simg2img,
    Img2simg,
    Mkbootimg,
    Simg2simg,
    UnpackBootimg,
    Append2simg,
    SimgDump,
}

impl Tool {
    /// Its name.
    pub fn name(self) -> &'static str
        ensures { result.now ≡ tool_name self }
    {
        match self {
            Tool::Simg2img => "simg2img",
            Tool::Img2simg => "img2simg",
            Tool::Mkbootimg => "mkbootimg",
            Tool::Simg2simg => "simg2simg",
            Tool::UnpackBootimg => "unpack_bootimg",
            Tool::Append2simg => "append2simg",
            Tool::SimgDump => "simg_dump",
        }
    }

    /// The exit status where the words are wrong.
    pub fn wrong_words(self) -> u8
        ensures { result ≡ wrong_words_status self }
    {
        match self {
            Tool::Mkbootimg | Tool::UnpackBootimg => 2,
            _ => 1,
        }
    }

    /// What to use instead of a tool whose words are not read.
    pub(crate) fn instead(self) -> Option<&'static str>
        // no words ask for orders of it
        ensures { IfSome result (λ _. (all said : List Answer) (orders : Orders) →
            AsksOrders self all said orders → ⊥) }
    {
        match self {
            Tool::Append2simg => Some(
                "use abootimg expand, append to the raw image, and abootimg sparse",
            ),
            Tool::SimgDump => Some("use abootimg list IMAGE"),
            _ => None,
        }
    }

    // The tool whose name is the last part of a path.
    fn of_path(path: &str) -> Option<Tool>
        ensures calls { IfSome result (λ tool. IsLastPart (tool_name tool) path.now) }
        ensures none { result ≡ None → CallsNone path.now }
    {
        for tool in &TOOLS {
            if is_last_part(tool.name(), path) {
                return Some(*tool);
            }
        }
        None
    }
}

static TOOLS: [Tool; 7] = [
    Tool::Simg2img,
    Tool::Img2simg,
    Tool::Mkbootimg,
    Tool::Simg2simg,
    Tool::UnpackBootimg,
    Tool::Append2simg,
    Tool::SimgDump,
];

// Whether a path ends in this name, after a folder or alone.
fn is_last_part(name: &str, path: &str) -> bool
    ensures { IsTrue result ↔ IsLastPart name.now path.now }
{
    match front_of(path, name) {
        Some(front) => is_folder(front),
        None => false,
    }
}

// What is before the end of a path.
#[inline(never)]
fn front_of<'a>(path: &'a str, end: &str) -> Option<&'a str>
    ensures some { IfSome result (λ front. path.entry.now ≡ front.now ++ end.now) }
    ensures none { result ≡ None → (front : List ℕ) → path.entry.now ≢ front ++ end.now }
{
    path.strip_suffix(end)
}

// Whether a name can follow: nothing is before it, or a folder with its slash.
fn is_folder(front: &str) -> bool
    ensures { IsTrue result ↔ IsFolder front.now }
{
    if front.is_empty() {
        return true;
    }
    match before_slash(front) {
        Some(_folder) => true,
        None => false,
    }
}

fn before_slash<'a>(text: &'a str) -> Option<&'a str>
    ensures some { IfSome result (λ folder. text.entry.now ≡ folder.now ++ (47 ∷ [])) }
    ensures none { result ≡ None → (folder : List ℕ) → text.entry.now ≢ folder ++ (47 ∷ []) }
{
    text.strip_suffix('/')
}

/// The tool that the words call, and its words, of which the first calls it: the program's own name, or the word after
/// `as`. None only if they call none.
pub fn called<S: AsStr>(words: &[S]) -> Option<(Tool, &[S])>
    ensures calls { IfSome result (λ call. IsCalled (map S.text words.now) call.0 (map S.text call.1.now)) }
    ensures none { result ≡ None → (tool : Tool) (own : List (List ℕ)) → IsCalled (map S.text words.now) tool own → ⊥ }
{
    if let Some(tool) = first_tool(words) {
        return Some((tool, words));
    }
    let own = behind_as(words)?;
    let tool = first_tool(own)?;
    Some((tool, own))
}

// The tool that the first word is a path of.
fn first_tool<S: AsStr>(words: &[S]) -> Option<Tool>
    ensures calls { IfSome result (λ tool. IsLastPart (tool_name tool) (get_or (map S.text words.now) 0 [])) }
    ensures none { result ≡ None → CallsNone (get_or (map S.text words.now) 0 []) }
{
    match words {
        [word, ..] => Tool::of_path(word.as_str()),
        [] => Tool::of_path(""),
    }
}

// The words after the program's name and `as`.
fn behind_as<S: AsStr>(words: &[S]) -> Option<&[S]>
    ensures some { IfSome result (λ own. IsBehindAs (map S.text words.now) (map S.text own.now)) }
    ensures none { result ≡ None → (own : List (List ℕ)) → IsBehindAs (map S.text words.now) own → ⊥ }
{
    match words {
        [_, word, own @ ..] if word.as_str() == "as" => Some(own),
        _ => None,
    }
}

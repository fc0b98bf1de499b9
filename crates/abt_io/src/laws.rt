//! Laws on the intermediate states of a partition. Their functions do nothing: the contract is the law.

ghost use Rattle.std.specs.Prelude.{◌≡◌, ℕ, Bool, false, List, slice_get};
ghost use Rattle.std.specs.List.{AllByRecursion};
ghost use Rattle.abt_io.specs.Moment.{Moment, MayLeave, Keeps, EachSince, Through, is_pending};

/// Through calls whose writes stay within given ranges, every other byte keeps its value and does not become pending,
/// from the first state to each later one.
pub fn moments_join()
    ensures { (touched : ℕ → Bool) (m : Moment) (ns : List Moment) → Through touched m ns →
        AllByRecursion (Keeps touched m) ns }
{}

/// The same for one run of calls after another, in the terms of the contracts of calls.
pub fn runs_join()
    ensures { (touched : ℕ → Bool) (first middle last : Moment) (a b c : List Moment) → Keeps touched first middle →
        Keeps touched middle last → EachSince a b (Keeps touched first) → EachSince b c (Keeps touched middle) →
        Keeps touched first last × EachSince a c (Keeps touched first) }
{}

/// Where no untouched byte was pending before, a crash at a later state leaves each of them as it
/// was.
pub fn untouched_bytes_last()
    ensures { (touched : ℕ → Bool) (before now : Moment) (q : List ℕ) → Keeps touched before now → MayLeave now q →
        (i : ℕ) → touched i ≡ false → is_pending before.pending i ≡ false → slice_get q i ≡ slice_get before.content i }
{}

//! What is answered, by what the source assigns over its hierarchy of instances: laws, as functions that do nothing.

ghost use Rattle.cam_io.specs.Contents.{Contents};
ghost use Rattle.cam_base.specs.Unread.{SourceError as Refusal, yields};
ghost use Rattle.explain.specs.Answers.{is_assigned};
ghost use Rattle.explain.specs.declared.answer.Answer.{Answer};
ghost use Rattle.source_commands.specs.Assigned.{AnswersWhether, ListsAssigned};
ghost use Rattle.source_commands.specs.Explained.{IsAnswered, IsExplained};
ghost use Rattle.source_commands.specs.Listed.{IsListed, IsListing, listing_text};
ghost use Rattle.source_commands.specs.declared.listing.Listing.{Listing as Listed};
ghost use Rattle.std.specs.Prelude.{◌≡◌, ℕ, false, List, Result};

/// In given contents there is one answer of listing and one of explaining, aside from failed reads and want of memory.
pub fn answers_are_one()
    ensures listed { (root : List ℕ) (m : Contents) (old new later last : List ℕ → ℕ) (a b : Result Listed Refusal)
        → yields a ≡ false → yields b ≡ false
        → IsListed root m old new a → IsListed root m later last b → a ≡ b }
    ensures explained { (from authority to root : List ℕ) (m : Contents) (old new later last : List ℕ → ℕ)
        (a b : Result Answer Refusal) → yields a ≡ false → yields b ≡ false
        → IsExplained from authority to root m old new a → IsExplained from authority to root m later last b → a ≡ b }
{}

/// What listing prints has a line for each triple that the source assigns, in order, each once.
pub fn listings_are_all_that_is_assigned()
    ensures { (root : List ℕ) (contents : Contents) (listing : Listed) → IsListing root contents listing
        → ListsAssigned root contents (listing_text listing) }
{}

/// Explaining says a reason exactly where the words are an authority's name and the texts of two labels between which the source
/// assigns it, and else that it isn't assigned.
pub fn explained_is_what_is_assigned()
    ensures { (from authority to root : List ℕ) (contents : Contents) (answer : Answer)
        → IsAnswered from authority to root contents answer
        → AnswersWhether root contents from authority to (is_assigned answer) }
{}

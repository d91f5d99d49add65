//! Laws of the definition, in the words of the subject. They are contracts of functions that do nothing.

ghost use Rattle.std.specs.Prelude.{ℕ, List};
ghost use Rattle.pcapng_source.specs.Laws.{HasHeader, IsItself};

/// A file that doesn't begin with the type of a section header is no pcapng file: it is given as it is, and never
/// refused.
pub fn other_files_are_given_as_they_are()
    ensures { (bytes : List ℕ) → IsItself bytes }
{}

/// Of a file that is refused, the global header of a classic capture is given first: so what is given is no short header.
pub fn refused_files_begin_with_a_header()
    ensures { (bytes : List ℕ) → HasHeader bytes }
{}

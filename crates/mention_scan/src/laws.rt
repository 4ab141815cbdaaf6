//! Laws of the division of a text. The functions do nothing: what they ensure is what is proved.
ghost use Rattle.std.specs.Prelude.{ℕ, List, IsUtf8};
ghost use Rattle.mention_scan.specs.Division.{BareRunsDiffer, HasOneDivision, IsWhole, division};

/// Each text has one division.
pub fn each_text_has_one_division()
    ensures { (text : List ℕ) → IsUtf8 text → HasOneDivision text }
{}

/// The parts of a text's division make up the text.
pub fn a_division_is_whole()
    ensures { (text : List ℕ) → IsUtf8 text → IsWhole text }
{}

/// Two bare runs of one line are never equally long. So in a line the search for the run that ends a run fails once at most
/// for each length.
pub fn bare_runs_of_a_line_differ()
    ensures { (text : List ℕ) → IsUtf8 text → BareRunsDiffer (division text) }
{}

//! Laws of texts, lines and numerals, over the definitions alone.
ghost use Rattle.std.specs.Prelude.{◌≡◌, ◌↔◌, ℕ, ◌^◌, ◌<◌, List, [], ◌∷◌, ◌++◌, Result, Ok, Some};
ghost use Rattle.std.specs.Fmt.{decimal};
ghost use Rattle.std.specs.List.{AllByRecursion};
ghost use Rattle.test_lang.specs.declared.text.fault.TestFault.{TestFault};
ghost use Rattle.test_lang.specs.declared.text.form.Form.{Form};
ghost use Rattle.test_lang.specs.Program.{Program};
ghost use Rattle.test_lang.specs.Text.Line.{IsLine, IsInLines, closed, lines_of};
ghost use Rattle.test_lang.specs.Text.Numeral.{IsNumeralOf, StartsWithNumeral, numeral_at, whole_numeral};
ghost use Rattle.test_lang.specs.Text.Form.{HasForm, form_of};
ghost use Rattle.test_lang.specs.Text.Reading.{reading};
ghost use Rattle.test_lang.specs.Text.Refusal.{TextMeans};

/// A text is its lines, each closed by a line feed, and bytes without a line feed behind them.
pub fn text_is_its_lines()
    ensures lines { (text : List ℕ) → (rest : List ℕ) × IsInLines text (lines_of text) rest }
    ensures only { (text : List ℕ) (lines : List (List ℕ)) (rest : List ℕ) →
        IsInLines text lines rest → lines_of text ≡ lines }
{}

/// The numeral that is read is the longest that stands there, and a number below 2^64 has one numeral, its decimal text.
pub fn numerals_are_read()
    ensures front { (bytes : List ℕ) (n : ℕ) (rest : List ℕ) →
        (numeral_at bytes ≡ Some (n, rest)) ↔ StartsWithNumeral bytes n rest }
    ensures whole { (bytes : List ℕ) (n : ℕ) →
        (whole_numeral bytes ≡ Some n) ↔ IsNumeralOf n bytes }
    ensures one { (bytes : List ℕ) (n : ℕ) →
        n < 2 ^ 64 → IsNumeralOf n bytes ↔ (bytes ≡ decimal n) }
{}

/// The form that is read of a line is the form that it has.
pub fn forms_are_read()
    ensures { (version : ℕ) (line : List ℕ) (form : Form) →
        (form_of version line ≡ Some form) ↔ HasForm version line form }
{}

/// What reading a text gives is what the text means: the test with whose text it begins, or why it is refused.
pub fn texts_are_read()
    ensures { (text : List ℕ) (meant : Result Program TestFault) →
        (reading text ≡ meant) ↔ TextMeans text meant }
{}

/// A text is that of one test, whatever stands behind it.
pub fn one_test()
    ensures { (text : List ℕ) (p q : Program) → TextMeans text (Ok p) → TextMeans text (Ok q) → p ≡ q }
{}

//! Laws of the relation between traces and texts.

ghost use Rattle.std.specs.Prelude.{◌≡◌, ℕ, List};
ghost use Rattle.jt_trace_text.specs.Lines.{IsFirstBad};
ghost use Rattle.jt_trace_text.specs.Texts.{TraceValue, IsTraceText, IsText};

/// No trace has two texts.
pub fn trace_has_one_text()
    ensures { (t : TraceValue) (z w : List ℕ) → IsTraceText t z → IsTraceText t w → z ≡ w }
{}

/// No text is one of two traces.
pub fn text_has_one_trace()
    ensures { (t u : TraceValue) (z : List ℕ) → IsTraceText t z → IsTraceText u z → t ≡ u }
{}

/// A text has no two lines that are the first bad one.
pub fn one_line_is_first_bad()
    ensures { (j k : ℕ) (z : List ℕ) → IsFirstBad IsText j z → IsFirstBad IsText k z → j ≡ k }
{}

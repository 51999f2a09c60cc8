//! Laws about what packets say. A function here does nothing: its contract is the law, which is proved with it.

ghost use Rattle.header_core.specs.Dissections.{HasOneMeaning, IgnoresPadding, KeepsFragmentsTogether};

/// The captured bytes have one meaning: what `dissect` returns is the only answer that its contract allows.
pub fn one_meaning()
    ensures { HasOneMeaning }
{}

/// Bytes behind a packet's own length change nothing of what it says.
pub fn padding_is_ignored()
    ensures { IgnoresPadding }
{}

/// Fragments of one datagram have one five-tuple.
pub fn fragments_stay_together()
    ensures { KeepsFragmentsTogether }
{}

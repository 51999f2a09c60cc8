//! What holds of every verdict and of every spacing, as contracts of functions that do nothing.

ghost use Rattle.std.specs.Prelude.{◌≡◌, ◌≢◌, ◌<◌, ◌≤◌, ◌⊎◌, ℕ, List, [], length, slice_get, IsSomeAnd, IfSome, IsTrue, None};
ghost use Rattle.packet_core.specs.declared.packet.Ecn.TheVariants as field;
ghost use Rattle.packet_core.specs.declared.packet.Waiting.{Waiting};
ghost use Rattle.packet_core.specs.declared.params.EcnUse.TheVariants as ecn;
ghost use Rattle.packet_core.specs.declared.params.ParamFields.{ParamFields};
ghost use Rattle.codel_core.specs.declared.served.Mark.{Mark};
ghost use Rattle.codel_core.specs.declared.served.Mark.TheVariants.{NoMark, CodelMark, Threshold};
ghost use Rattle.codel_core.specs.declared.state.CodelState.{CodelState};
ghost use Rattle.codel_core.specs.Schedule.{spacing_of};
ghost use Rattle.codel_core.specs.Spacing.{IsSpacing};
ghost use Rattle.codel_core.specs.Queue.{is_past_threshold};
ghost use Rattle.codel_core.specs.Verdict.{Decides, final_mark};

/// On each queue, state and moment CoDel has one verdict, and no other. It gives a packet of each queue that
/// isn't empty, and CoDel marks a packet only where marks are made and the packet's sender takes part (RFC 8289,
/// section 5; RFC 8290, section 4; RFC 3168, section 5). The threshold marks what CoDel doesn't mark, where the packet
/// is one that it marks, and no other; it changes neither what is dropped, nor the state, nor a mark of CoDel's (RFC
/// 8290, section 5.2.7).
pub fn one_verdict()
    ensures exists { (p : ParamFields) (now : ℕ) (q : List Waiting) (old : CodelState)
        → (k : ℕ) × (mark : Mark) × (new : CodelState) × Decides p now q old k mark new }
    ensures unique { (p : ParamFields) (now : ℕ) (q : List Waiting) (old : CodelState)
        (k k' : ℕ) (mark mark' : Mark) (new new' : CodelState)
        → Decides p now q old k mark new → Decides p now q old k' mark' new'
        → (k ≡ k') × (mark ≡ mark') × (new ≡ new') }

    // k is a place of the queue, unless the queue is empty
    ensures gives { (p : ParamFields) (now : ℕ) (q : List Waiting) (old : CodelState)
        (k : ℕ) (mark : Mark) (new : CodelState)
        → Decides p now q old k mark new
        → ((q ≡ []) × (k ≡ 0)) ⊎ (k < length q) }
    ensures honest { (p : ParamFields) (now : ℕ) (q : List Waiting) (old : CodelState)
        (k : ℕ) (mark : Mark) (new : CodelState)
        → Decides p now q old k mark new → mark ≡ CodelMark
        → IsSomeAnd (slice_get q k) (λ w. (p.ecn ≡ ecn.Mark) × (w.packet.ecn ≢ field.NotEct)) }
    ensures threshold { (p : ParamFields) (now : ℕ) (q : List Waiting) (old : CodelState)
        (k : ℕ) (mark : Mark) (new : CodelState)
        → Decides p now q old k mark new → mark ≡ Threshold
        → IsSomeAnd (slice_get q k) (λ w. IsTrue (is_past_threshold p now w)) }
    ensures unmarked { (p : ParamFields) (now : ℕ) (q : List Waiting) (old : CodelState)
        (k : ℕ) (mark : Mark) (new : CodelState)
        → Decides p now q old k mark new → mark ≡ NoMark
        → IfSome (slice_get q k) (λ w. ¬ IsTrue (is_past_threshold p now w)) }
    ensures apart { (p : ParamFields) (now : ℕ) (q : List Waiting) (old : CodelState)
        (k : ℕ) (mark : Mark) (new : CodelState)
        → Decides (record p { ce_threshold = None }) now q old k mark new
        → Decides p now q old k (final_mark p now (slice_get q k) mark) new }
{}

/// The spacing that the drop schedule is made of is the interval divided by the square root of the count, rounded
/// down, and no other number is that (RFC 8289, section 5). It holds of every interval, and of every count from 1.
pub fn one_spacing()
    ensures exists { (interval n : ℕ) → 1 ≤ n → IsSpacing interval n (spacing_of interval n) }
    ensures unique { (interval n r : ℕ) → 1 ≤ n → IsSpacing interval n r → r ≡ spacing_of interval n }
{}

//! Who makes a call of a handle, or of a stream.
//!
//! A handle's call is generic in its caller, whose one pass it gives back: so the prover refuses a call more than
//! its clause names. The pass of no content is made here alone.
ghost use Rattle.std.specs.Prelude.{◌≡◌};

use std::sync::Wait;

/// Who makes a call: `&rt`, the runtime value.
///
/// A caller carries a pass; clauses name its value before and after. It is `()` without a history. A call by a
/// pass with content is one of `channel`, which is lent the pass.
pub trait CallContext<P> {
    /// What the call waits by.
    type Runtime: Wait + Drop;
    /// What takes the pass back. It can't be let go otherwise.
    type Exit;

    /// The pass before the call.
    ghost before: { Self → P };

    /// The pass after the call.
    ghost after: { Self → P };

    /// The pass that is to come back.
    ghost owed: { Self.Exit → P };

    /// Begins a call: what it waits by, the pass, and what takes the pass back.
    fn enter(self) -> (Self::Runtime, P, Self::Exit)
        ensures before { result.1 ≡ before self }
        ensures owed { owed result.2 ≡ after self };

    /// Ends the call, with its pass.
    fn exit(end: Self::Exit, pass: P)
        ensures back { pass ≡ owed end };
}

impl<'r, R: Wait> CallContext<()> for &'r R {
    type Runtime = &'r R;

    type Exit = ();

    ghost before = { λ _. tt };

    ghost after = { λ _. tt };

    ghost owed = { λ _. tt };

    #[inline(always)]
    fn enter(self) -> (&'r R, (), ()) {
        (self, (), ())
    }

    #[inline(always)]
    fn exit(_end: (), _pass: ()) {}
}

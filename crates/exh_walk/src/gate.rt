ghost use Rattle.std.specs.Prelude.{◌≡◌, ◌≤◌, ◌↔◌, ℕ, Bool, true, IsTrue};

/// Who may go on: asked before each hop of a caller's walk, whose turns are counted from 1 on. Nothing
/// is locked then.
pub trait Gate {
    /// The answers that it may give to a client at a turn.
    ghost may: { Self → ℕ → ℕ → Bool → Type 0 };

    /// Whether this client may go on at this turn.
    fn pass(&self, client: u32, turn: u32) -> bool
        ensures { may self.now client turn result };
}

/// A gate that says yes to every client at every turn.
#[derive(Clone, Copy)]
pub struct OpenGate;

impl Gate for OpenGate {
    ghost may = { λ gate client turn answer. answer ≡ true };

    fn pass(&self, _client: u32, _turn: u32) -> bool {
        true
    }
}

/// A gate that says yes to every client at the turns from 1 to this number, and no at all others.
#[derive(Clone, Copy)]
pub struct TurnGate(pub u32);

impl Gate for TurnGate {
    ghost may = { λ gate client turn answer. IsTrue answer ↔ ((1 ≤ turn) × (turn ≤ gate.0)) };

    fn pass(&self, _client: u32, turn: u32) -> bool {
        1 <= turn && turn <= self.0
    }
}

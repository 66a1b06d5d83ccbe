//! What follows from the definitions alone. Each function is empty: its contract is the law.

ghost use Rattle.std.specs.Prelude.{◌≡◌, ◌≢◌, ◌≤◌, ◌++◌, ◌∷◌, [], ℕ, List, length};
ghost use Rattle.sms_saved.specs.declared.state.Key.{Key};
ghost use Rattle.sms_saved.specs.declared.state.Limits.{Limits};
ghost use Rattle.sms_saved.specs.declared.state.Remembered.{Remembered};
ghost use Rattle.sms_saved.specs.Value.{StateValue};
ghost use Rattle.sms_saved.specs.Parts.{FrontValue, IsFront, HasKeys, AreRead, state_of};
ghost use Rattle.sms_saved.specs.Fits.{KeyFits, StateFits};
ghost use Rattle.sms_saved.specs.Spelling.{key, spelling, body, digest};

/// Keys that have the same octets, whatever follows them, are the same: so a key stands twice just
/// where its octets do.
pub fn keys_have_own_octets()
    ensures { (a b : Key) (x y : List ℕ) → KeyFits a → KeyFits b → key a ++ x ≡ key b ++ y
        → (a ≡ b) × (x ≡ y) }
{}

/// No octets are two states.
pub fn states_have_own_octets()
    ensures { (s t : StateValue) → StateFits s → StateFits t → spelling s ≡ spelling t
        → s ≡ t }
{}

/// No state begins another: nothing that was cut at its end, and nothing with octets added there,
/// is a state.
pub fn no_state_begins_another()
    ensures { (s t : StateValue) (more : List ℕ) → StateFits s → StateFits t
        → spelling s ++ more ≡ spelling t → more ≡ [] }
{}

/// Where one octet is changed and both are states, it is before the checksum, and the two are a
/// collision of SHA-512/256.
pub fn one_octet_changed()
    ensures before_sum { (s t : StateValue) (front back : List ℕ) (a b : ℕ) → a ≢ b
        → spelling s ≡ front ++ a ∷ back → spelling t ≡ front ++ b ∷ back
        → 32 ≤ length back }
    ensures collision { (s t : StateValue) (front back : List ℕ) (a b : ℕ) → a ≢ b
        → spelling s ≡ front ++ a ∷ back → spelling t ≡ front ++ b ∷ back
        → (body s ≢ body t) × (digest (body s) ≡ digest (body t)) }
{}

/// Where one octet is put in, or left out, and both are states, it is before the checksum, and the
/// two are a collision of SHA-512/256.
pub fn one_octet_more()
    ensures before_sum { (s t : StateValue) (front back : List ℕ) (a : ℕ) → StateFits s
        → StateFits t → spelling s ≡ front ++ back → spelling t ≡ front ++ a ∷ back
        → 32 ≤ length back }
    ensures collision { (s t : StateValue) (front back : List ℕ) (a : ℕ) → StateFits s
        → StateFits t → spelling s ≡ front ++ back → spelling t ≡ front ++ a ∷ back
        → (body s ≢ body t) × (digest (body s) ≡ digest (body t)) }
{}

/// A state may be taken in parts: octets that begin as one, and then have its keys and the checksum
/// of all, are read as it.
pub fn parts_make_a_state()
    ensures { (own : Limits) (bytes : List ℕ) (f : FrontValue) (keys : List Remembered)
        → IsFront own bytes f → HasKeys bytes f keys → AreRead own bytes (state_of own f keys) }
{}

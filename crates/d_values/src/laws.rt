//! What holds of all numbers and variables, in other words than the definitions'.

ghost use Rattle.std.specs.Prelude.{◌≡◌, ◌≢◌, ◌/◌, ◌<◌, ◌-◌, ◌%◌, ◌^◌, ℕ, ℤ, pos, neg_ℤ, ◌+ℤ◌};
ghost use Rattle.std.specs.Prelude.{◌-ℤ◌, ◌*ℤ◌, Ok, int_div, int_rem, unsigned_abs, List};
ghost use Rattle.d_values.specs.Vocabulary.{ArithmeticOperator, IntType, KeyPart, ShiftOperator};
ghost use Rattle.d_values.specs.Vocabulary.{Value, Var, int_cmp};
ghost use Rattle.d_values.specs.Numbers.{number_of, whole_of, whole_shift_of, wrap, IsWrapped};
ghost use Rattle.d_values.specs.Stores.{with_local, with_own};
ghost use Rattle.d_values.specs.Words.{binary_of, difference_of, narrow, order_of};
ghost use Rattle.d_values.specs.Words.{shift_of};

/// A number wrapped into a type is of that type, and equals the number modulo two to the width.
pub fn wrap_lies_in_type()
    ensures { (t : IntType) (z : ℤ) → IsWrapped t z (wrap t z) }
{}

/// There is no other number like it.
pub fn one_number()
    ensures { (t : IntType) (z n : ℤ) → IsWrapped t z n → n ≡ wrap t z }
{}

/// An operator on words is that on the whole numbers that they stand for, wrapped into the type;
/// their order is that of the numbers, and conversion keeps a word's number, wrapped.
pub fn operators_are_of_whole_numbers()
    ensures binary { (op : ArithmeticOperator) (t : IntType) (a b word : ℕ)
        → a < 2 ^ 64 → b < 2 ^ 64 → binary_of op t a b ≡ Ok word
        → number_of t word ≡ wrap t (whole_of op (number_of t a) (number_of t b)) }
    ensures shift { (op : ShiftOperator) (t : IntType) (a count : ℕ) → a < 2 ^ 64
        → number_of t (shift_of op t a count)
        ≡ wrap t (whole_shift_of op (number_of t a) (count % t.width)) }
    ensures opposite { (t : IntType) (a : ℕ) → a < 2 ^ 64
        → number_of t (narrow t (difference_of 0 a)) ≡ wrap t (neg_ℤ (number_of t a)) }
    ensures complement { (t : IntType) (a : ℕ) → a < 2 ^ 64
        → number_of t (narrow t (2 ^ 64 - 1 - a)) ≡ wrap t (neg_ℤ (number_of t a) -ℤ pos 1) }
    ensures order { (t : IntType) (a b : ℕ)
        → order_of t a b ≡ int_cmp (number_of t a) (number_of t b) }
    ensures conversion { (from to : IntType) (a : ℕ) → a < 2 ^ 64
        → number_of to (narrow to a) ≡ wrap to (number_of from a) }
{}

/// A quotient times the divisor, and the remainder, are what was divided; the remainder is nearer
/// to zero than the divisor, and the quotient is cut toward zero, as that of the distances from
/// zero is.
pub fn division()
    ensures whole { (x y : ℤ) → int_div x y *ℤ y +ℤ int_rem x y ≡ x }
    ensures rest { (x y : ℤ) → 0 < unsigned_abs y
        → unsigned_abs (int_rem x y) < unsigned_abs y }
    ensures toward_zero { (x y : ℤ) → unsigned_abs (int_div x y) ≡ unsigned_abs x / unsigned_abs y }
{}

/// A variable reads what it was set to, and each other variable reads as before.
pub fn one_local_set()
    ensures here { (values : Var → Value) (var : Var) (value : Value)
        → with_local values var value var ≡ value }
    ensures others { (values : Var → Value) (var : Var) (value : Value) (other : Var)
        → other ≢ var → with_local values var value other ≡ values other }
{}

/// A variable reads under a key what it was set to there, and all else stays.
pub fn one_element_set()
    ensures here { (values : Var → List KeyPart → Value) (var : Var) (key : List KeyPart)
        (value : Value) → with_own values var key value var key ≡ value }
    ensures others { (values : Var → List KeyPart → Value) (var : Var) (key : List KeyPart)
        (value : Value) (v : Var) (k : List KeyPart) → ((v ≡ var) × (k ≡ key) → ⊥)
        → with_own values var key value v k ≡ values v k }
{}

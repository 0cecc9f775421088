//! Laws of the definitions, each on a function that does nothing.
ghost use Rattle.std.specs.Prelude.{◌≡◌, ◌≢◌, ◌↔◌, ℕ, ℤ, Bool, true, List};
ghost use Rattle.std.specs.declared.cmp.Ordering.TheVariants.{Equal, Less};
ghost use Rattle.std.specs.Ordering.{nat_cmp, int_cmp, bool_cmp, ordering_then};
ghost use Rattle.std.specs.Cmp.Lexicographic.{slice_cmp};
ghost use Rattle.std.specs.Cmp.{IsTotalOrder};
ghost use Rattle.sb_types.specs.Order.{value_cmp, values_cmp, variant_of};
ghost use Rattle.sb_types.specs.Key.{IsKeyOf, is_key};
ghost use Rattle.sb_types.specs.Text.{value_text};
ghost use Rattle.sb_types.specs.Typed.{IsValueOf};
ghost use Rattle.sb_types.specs.Value.{Value, Values, int, text, truth, pair, none, some, list, rec, end, more};
ghost use Rattle.sb_types.specs.ValueType.{ValueType};
ghost use Rattle.sb_types.specs.ValView.{value_of, val_of};
ghost use Rattle.sb_types.specs.declared.values.Val.{Val};

/// The order of values is total, and tells all unequal values apart.
pub fn order_is_total()
    ensures total { IsTotalOrder value_cmp }
    ensures equal { (v w : Value) → value_cmp v w ≡ Equal ↔ (v ≡ w) }
{}

/// The order of values, case by case: two values of one variant, and two of different variants.
pub fn order_by_cases()
    ensures int { (m n : ℤ) → value_cmp (int m) (int n) ≡ int_cmp m n }
    ensures text { (s t : List ℕ) → value_cmp (text s) (text t) ≡ slice_cmp nat_cmp s t }
    ensures truth { (a b : Bool) → value_cmp (truth a) (truth b) ≡ bool_cmp a b }
    ensures pair { (v w x y : Value) → value_cmp (pair v w) (pair x y)
        ≡ ordering_then (value_cmp v x) (value_cmp w y) }
    ensures none { (v : Value) → value_cmp none (some v) ≡ Less }
    ensures some { (v w : Value) → value_cmp (some v) (some w) ≡ value_cmp v w }
    ensures list { (vs ws : Values) → value_cmp (list vs) (list ws) ≡ values_cmp vs ws }
    ensures rec { (vs ws : Values) → value_cmp (rec vs) (rec ws) ≡ values_cmp vs ws }
    ensures parts { (v w : Value) (vs ws : Values)
        → values_cmp (more v vs) (more w ws) ≡ ordering_then (value_cmp v w) (values_cmp vs ws) }
    ensures prefix { (v : Value) (vs : Values) → values_cmp end (more v vs) ≡ Less }
    ensures variants { (v w : Value) → variant_of v ≢ variant_of w
        → value_cmp v w ≡ nat_cmp (variant_of v) (variant_of w) }
{}

/// No two keys of one key type have one text.
pub fn keys_have_own_texts()
    ensures { (t : ValueType) (v w : Value) → IsKeyOf t v → IsKeyOf t w
        → value_text v ≡ value_text w → v ≡ w }
{}

/// The keys of a type are its values in which there is no list and no record.
pub fn keys_are_values()
    ensures { (t : ValueType) (v : Value) → IsKeyOf t v ↔ (IsValueOf t v × (is_key v ≡ true)) }
{}

/// A `Val` and the value that contracts see are one thing.
pub fn views_are_exact()
    ensures back { (v : Val) → val_of (value_of v) ≡ v }
    ensures value { (v : Value) → value_of (val_of v) ≡ v }
{}

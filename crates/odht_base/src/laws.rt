//! Laws of the definitions that are not part of the contract of any call. Each function does
//! nothing: its contract is the law.
//!
//! They hold for every format `F`: every pair of lengths up to 255 and every hash of 32 bits.
ghost use Rattle.std.specs.Prelude.{◌≡◌, ℕ, ◌+◌, ◌*◌, ◌%◌, ◌<◌, ◌≤◌, ◌^◌, ◌++◌, ◌↔◌, List, [], ◌∷◌};
ghost use Rattle.std.specs.Prelude.{length, drop, map, All, Some, IsTrue, IsPermutation, bytes_eq};
ghost use Rattle.std.specs.Prelude.{if◌then◌else◌};
ghost use Rattle.std.specs.List.{range_with_len};
ghost use Rattle.odht_base.specs.Numbers.{num, le_bytes, IsBytes};
ghost use Rattle.odht_base.specs.Load.{IsSlotCount};
ghost use Rattle.odht_base.specs.Format.{Format, IsFormat};
ghost use Rattle.odht_base.specs.Probe.{probe_slot, order};
ghost use Rattle.odht_base.specs.Table.{Pair, Table, slot_count, is_free, walk, fresh};
ghost use Rattle.odht_base.specs.SlotWalks.{walk_from, slots_from};
ghost use Rattle.odht_base.specs.Map.{map_of, last, overwritten, KeysApart};
ghost use Rattle.odht_base.specs.CountRule.{insert_owned_by_count, insert_view_by_count};
ghost use Rattle.odht_base.specs.CountRule.{NoneOverwritesFull};
ghost use Rattle.odht_base.specs.Insert.{place, grown, run, insert_owned, insert_view};
ghost use Rattle.odht_base.specs.Image.{image, image_len};
ghost use Rattle.odht_base.specs.Made.{IsMade, IsInsertOrder, RemadeBy};
ghost use Rattle.odht_base.specs.Valid.{IsPairOf, IsPlaced, IsValid};
ghost use Rattle.odht_base.specs.Decoded.{decoded_table};

/// A number and its bytes determine one another.
pub fn numbers_are_their_bytes()
    ensures number { (w n : ℕ) → n < 256 ^ w → num (le_bytes w n) ≡ n }
    ensures bytes { (w : ℕ) (b : List ℕ) → IsBytes w b → le_bytes w (num b) ≡ b }
{}

/// The probe order from any home lists each slot exactly once; position `16 * j + i` of it is slot
/// `(b + 8 * j * (j + 1) + i) mod s`.
pub fn orders_list_each_slot_once()
    ensures slot { (b s j i : ℕ) → i < 16
        → probe_slot b s (16 * j + i) ≡ (b + 8 * j * (j + 1) + i) % s }
    ensures each_once { (b s : ℕ) → IsSlotCount s → IsPermutation (order b s) (range_with_len 0 s) }
{}

/// The image of a valid table has the length of its slot count and decodes to the table, so
/// different valid tables have different images.
pub fn images_determine_tables()
    ensures len { (F : Format) (P : Table) → IsValid F P
        → length (image F P) ≡ image_len F (slot_count P) }
    ensures decoded { (F : Format) (P : Table) → IsFormat F → IsValid F P
        → decoded_table F (image F P) ≡ P }
    ensures one { (F : Format) (P Q : Table) → IsFormat F → IsValid F P → IsValid F Q
        → image F P ≡ image F Q → P ≡ Q }
{}

/// A valid table has a free slot, so any pair can be placed in it. A fresh table for `n` items
/// accepts its first `n` items, by either insert, without growth or error.
pub fn valid_tables_have_room()
    ensures free { (F : Format) (P : Table) → IsValid F P → (i : ℕ) × (i < slot_count P)
        × IsTrue (is_free P.cells i) }
    ensures takes { (F : Format) (P : Table) (p : Pair) → IsValid F P → (Q : Table)
        × (place F P p ≡ Some Q) }
    ensures owned { (F : Format) (n p : ℕ) (P : Table) (ps : List Pair)
        → 1 ≤ p → p ≤ 100 → fresh n p ≡ Some P → All (IsPairOf F) ps → length ps ≤ n
        → (Q : Table) × (run (insert_owned F) P ps ≡ Some Q) × (slot_count Q ≡ slot_count P) }
    ensures view { (F : Format) (n p : ℕ) (P : Table) (ps : List Pair)
        → 1 ≤ p → p ≤ 100 → fresh n p ≡ Some P → All (IsPairOf F) ps → length ps ≤ n
        → (Q : Table) × (run (insert_view F) P ps ≡ Some Q) × (slot_count Q ≡ slot_count P) }
{}

/// A walk may begin at any slot. From the slot of a pair that another walk reached it gives that
/// pair and those after it; past the last slot it gives none.
pub fn walks_go_on_from_any_slot()
    ensures start { (P : Table) → walk_from P 0 ≡ walk P }
    ensures pairs { (P : Table) (i : ℕ) → map (λ x. x.1) (slots_from P i) ≡ walk_from P i }
    ensures goes_on { (P : Table) (i n s : ℕ) (p : Pair) (left : List (ℕ × Pair))
        → drop n (slots_from P i) ≡ (s, p) ∷ left → slots_from P s ≡ (s, p) ∷ left }
    ensures past_end { (P : Table) (i : ℕ) → slot_count P ≤ i → slots_from P i ≡ [] }
{}

/// Placing a pair keeps a table placed, and changes its map at the pair's key alone.
pub fn placing_changes_one_key()
    ensures placed { (F : Format) (P Q : Table) (p : Pair)
        → IsPlaced F P → IsPairOf F p → place F P p ≡ Some Q → IsPlaced F Q }
    ensures maps { (F : Format) (P Q : Table) (p : Pair)
        → IsPlaced F P → place F P p ≡ Some Q
        → (k : List ℕ) → map_of Q k ≡ (if bytes_eq k p.key then Some p.value else map_of P k) }
{}

/// A growth keeps a table valid, with the same pairs and the same map.
pub fn growth_keeps_the_map()
    ensures valid { (F : Format) (P Q : Table) → IsValid F P → grown F P ≡ Some Q → IsValid F Q }
    ensures pairs { (F : Format) (P Q : Table) → IsValid F P → grown F P ≡ Some Q
        → IsPermutation (walk Q) (walk P) }
    ensures maps { (F : Format) (P Q : Table) → IsValid F P → grown F P ≡ Some Q → (k : List ℕ)
        → map_of Q k ≡ map_of P k }
{}

/// Inserts in turn keep a table valid. Then each inserted key has its last value, and every other
/// key the value that it had before.
pub fn runs_have_the_last_values()
    ensures owned { (F : Format) (P Q : Table) (ps : List Pair)
        → IsValid F P → All (IsPairOf F) ps → run (insert_owned F) P ps ≡ Some Q
        → IsValid F Q × ((k : List ℕ) → map_of Q k ≡ overwritten (map_of P) (last ps) k) }
    ensures view { (F : Format) (P Q : Table) (ps : List Pair)
        → IsValid F P → All (IsPairOf F) ps → run (insert_view F) P ps ≡ Some Q
        → IsValid F Q × ((k : List ℕ) → map_of Q k ≡ overwritten (map_of P) (last ps) k) }
{}

/// In a table at its maximum item count an insert depends on whether the key is present; by the
/// other rule, that of the Rust crate, on the item count alone. Both rules make the same table of
/// a list, unless some pair of it overwrites a value in a table at its maximum. So they agree on
/// pairs whose keys are all different and new.
pub fn rules_at_the_maximum_agree()
    ensures owned { (F : Format) (P : Table) (ps : List Pair)
        → NoneOverwritesFull (insert_owned F) P ps
        → run (insert_owned F) P ps ≡ run (insert_owned_by_count F) P ps }
    ensures view { (F : Format) (P : Table) (ps : List Pair)
        → NoneOverwritesFull (insert_view F) P ps
        → run (insert_view F) P ps ≡ run (insert_view_by_count F) P ps }
    ensures new_keys_owned { (F : Format) (P : Table) (ps : List Pair)
        → IsValid F P → All (IsPairOf F) ps → KeysApart (walk P ++ ps)
        → run (insert_owned F) P ps ≡ run (insert_owned_by_count F) P ps }
    ensures new_keys_view { (F : Format) (P : Table) (ps : List Pair)
        → IsValid F P → All (IsPairOf F) ps → KeysApart (walk P ++ ps)
        → run (insert_view F) P ps ≡ run (insert_view_by_count F) P ps }
{}

/// The valid tables that inserts make, growths included, are exactly those with an insert order.
/// The pairs in such an order, inserted into an empty table of as many slots, give the table: by
/// the owned table or a view, and by either rule at the maximum.
pub fn insert_orders_make_tables()
    ensures made { (F : Format) (P : Table)
        → IsValid F P → (IsMade F P ↔ (order : List ℕ) × IsInsertOrder F P order) }
    ensures owned { RemadeBy insert_owned }
    ensures view { RemadeBy insert_view }
    ensures owned_by_count { RemadeBy insert_owned_by_count }
    ensures view_by_count { RemadeBy insert_view_by_count }
{}

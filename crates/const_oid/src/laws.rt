//! Laws over the definitions: functions without effect, whose contracts say what holds.
//!
//! A `rule` is either of the two rules of the root: `Wide`, which the crate keeps, or `Narrow`. An input is accepted if
//! it has no error. In names, an error is a `fault`, and the octets of one subidentifier are a `group`.

ghost use Rattle.std.specs.Prelude.{◌≡◌, ◌≢◌, ◌↔◌, ℕ, ◌+◌, ◌*◌, ◌^◌, ◌<◌, ◌≤◌, List, [], ◌∷◌, ◌++◌, length, map, drop, nat_lt, sum_by, count_by, IsTrue, Some, None, Ok, codes, ◌-◌, take, slice_get};
ghost use Rattle.std.specs.Cmp.{IsTotalOrder};
ghost use Rattle.std.specs.Cmp.Lexicographic.{slice_cmp};
ghost use Rattle.std.specs.List.{AllByRecursion, AllZip, concat};
ghost use Rattle.std.specs.Option.{option_map};
ghost use Rattle.std.specs.Ordering.{nat_cmp};
ghost use Rattle.std.specs.declared.cmp.Ordering.TheVariants.{Less, Equal, Greater};
ghost use Rattle.const_oid.specs.Error.{fault_if, message_of, max_message};
ghost use Rattle.const_oid.specs.Items.{arc_fault, item_fault, item_answer};
ghost use Rattle.const_oid.specs.declared.error.Error.TheVariants.{ArcInvalid, ArcTooBig, Base128, DigitExpected, Empty, Length, Overflow, TrailingDot};
ghost use Rattle.const_oid.specs.Base128.{AreOctets, value_of, IsGroup, IsWidth, group_of, width};
ghost use Rattle.const_oid.specs.Contents.{cut, octet_fault, octet_answer, arcs_of_octets, arcs_from};
ghost use Rattle.const_oid.specs.Element.{IsLength, length_octets, element};
ghost use Rattle.const_oid.specs.Identifier.{RootRule, Narrow, Wide, root_rule, max_arc, max_second, IsIdentifier, IsEncoding, encoding_of, size};
ghost use Rattle.const_oid.specs.Orders.{shortlex_cmp, parts_cmp};
ghost use Rattle.const_oid.specs.Text.{text_fault, text_answer, text_of, components_of, number_of, Denotes, strip};
ghost use Rattle.const_oid.specs.Tree.{BeginsWith, child_of, parent_of};
ghost use Rattle.const_oid.specs.Rows.{Rows, led};
ghost use Rattle.const_oid.specs.Typed.{AreReadable, IsReadable, bare, begins_with_digit, displayed, dotted, typed_answer, without_blanks};
ghost use Rattle.const_oid.specs.WideRule.{IsPastNarrow, RefusesSecond};

/// Examples, which the definitions compute: under the rule of this crate, except for those that name the narrow one.
pub fn examples()
    ensures read { arcs_of_octets (0x2A ∷ 0x86 ∷ 0x48 ∷ 0xCE ∷ 0x3D ∷ 2 ∷ 1 ∷ [])
        ≡ 1 ∷ 2 ∷ 840 ∷ 10045 ∷ 2 ∷ 1 ∷ [] }
    ensures two_octets { octet_answer root_rule (0x88 ∷ 0x37 ∷ []) 39 ≡ Ok (2 ∷ 999 ∷ []) }
    ensures max_second { octet_answer root_rule (0x90 ∷ 0x80 ∷ 0x80 ∷ 0x80 ∷ 0x4F ∷ []) 39
        ≡ Ok (2 ∷ 4294967295 ∷ []) }
    ensures past_max_second { octet_fault root_rule (0x90 ∷ 0x80 ∷ 0x80 ∷ 0x80 ∷ 0x50 ∷ []) 39
        ≡ Some ArcTooBig }
    ensures below_max_second { octet_answer root_rule (0x90 ∷ 0x80 ∷ 0x80 ∷ 0x80 ∷ 0x4E ∷ []) 39
        ≡ Ok (2 ∷ 4294967294 ∷ []) }
    ensures zero_first { octet_fault root_rule (0x80 ∷ 1 ∷ []) 39 ≡ Some Base128 }
    ensures one_unfinished { octet_fault root_rule (0xFF ∷ []) 39 ≡ Some Base128 }
    ensures unfinished { octet_fault root_rule (0x2A ∷ 0x81 ∷ []) 39 ≡ Some Base128 }
    ensures past_32_bits { octet_fault root_rule (0x2A ∷ 0x90 ∷ 0x80 ∷ 0x80 ∷ 0x80 ∷ 0x80 ∷ []) 39
        ≡ Some ArcTooBig }
    ensures width { width 4294967295 ≡ 5 }
    ensures size { size (2 ∷ 4294967295 ∷ []) ≡ 5 }
    ensures dot_before_range { text_fault root_rule (codes "3.") 39 ≡ Some TrailingDot }
    ensures range_before_second_dot { text_fault root_rule (codes "3..") 39 ≡ Some (ArcInvalid 3) }
    ensures range { text_fault root_rule (codes "1.40") 39 ≡ Some (ArcInvalid 40) }
    ensures size_before_digit { text_fault root_rule (codes "1.2.4294967296X") 39 ≡ Some ArcTooBig }
    ensures digit { text_fault root_rule (codes "1.2.429496729X") 39 ≡ Some (DigitExpected 0x58) }
    ensures single { text_fault root_rule (codes "1") 39 ≡ Some Empty }
    ensures taken { text_answer root_rule (codes "2.999") 39 ≡ Ok (2 ∷ 999 ∷ []) }
    ensures max_second_text { text_answer root_rule (codes "2.4294967295") 39 ≡ Ok (2 ∷ 4294967295 ∷ []) }
    ensures past_max_second_text { text_fault root_rule (codes "2.4294967296") 39 ≡ Some ArcTooBig }
    ensures printed { text_of (1 ∷ 2 ∷ 840 ∷ []) ≡ codes "1.2.840" }
    ensures second_past_39 { item_fault root_rule (1 ∷ 40 ∷ 840 ∷ []) 39 ≡ Some (ArcInvalid 40) }
    ensures max_second_item { item_answer root_rule (2 ∷ 4294967295 ∷ []) 39 ≡ Ok (2 ∷ 4294967295 ∷ []) }
    ensures past_max_second_item { item_fault root_rule (2 ∷ 4294967296 ∷ []) 39 ≡ Some (ArcInvalid 4294967296) }
    ensures short_length { length_octets 38 ≡ 0x26 ∷ [] }
    ensures long_length { length_octets 201 ≡ 0x81 ∷ 0xC9 ∷ [] }
    ensures whole_element { element (0x88 ∷ 0x37 ∷ []) ≡ 0x06 ∷ 0x02 ∷ 0x88 ∷ 0x37 ∷ [] }
    ensures longest_message { length (message_of Base128) ≡ max_message }
    ensures narrow { octet_fault Narrow (0xFF ∷ []) 39 ≡ Some (ArcInvalid 6) }
    ensures narrow_before_digit { text_fault Narrow (codes "2.40.X") 39 ≡ Some (ArcInvalid 40) }
    ensures narrow_before_size { text_fault Narrow (codes "2.40.4294967296") 39 ≡ Some (ArcInvalid 40) }
    ensures narrow_before_second_dot { text_fault Narrow (codes "2.40..") 39 ≡ Some (ArcInvalid 40) }
{}

/// Each number has exactly one subidentifier, which has as many octets as the number's width.
pub fn unique_groups()
    ensures one { (n : ℕ) → IsGroup n (group_of n) }
    ensures only { (n : ℕ) (g h : List ℕ) → IsGroup n g → IsGroup n h → g ≡ h }
    ensures width { (n : ℕ) (g : List ℕ) → IsGroup n g → length g ≡ width n }
    ensures least { (n : ℕ) → IsWidth n (width n) }
{}

/// Subidentifiers are a prefix-free code: octets begin with the subidentifier of at most one number.
#[tactic(auto, using(crate::proofs::Groups::prefix_free))]
pub fn prefix_free()
    ensures { (m n : ℕ) (g h x y : List ℕ) → IsGroup m g → IsGroup n h → g ++ x ≡ h ++ y
        → (g ≡ h) × (m ≡ n) }
{}

/// Each number below 2^64, as the length of each slice is, has exactly one form as a length: `length_octets`.
pub fn unique_lengths()
    ensures one { (n : ℕ) → n < 2 ^ 64 → IsLength n (length_octets n) }
    ensures only { (n : ℕ) (octets : List ℕ) → n < 2 ^ 64 → IsLength n octets → octets ≡ length_octets n }
{}

/// Elements are a prefix-free code: what is written before other octets is read back, with these as the rest.
#[tactic(auto, using(crate::proofs::Elements::same_element))]
pub fn unique_elements()
    ensures { (a b x y : List ℕ) → length a < 2 ^ 64 → length b < 2 ^ 64 → element a ++ x ≡ element b ++ y
        → (a ≡ b) × (x ≡ y) }
{}

/// Accepted octets are the encoding of their arcs, and of no others. An encoding is accepted exactly if it fits.
pub fn octets_denote()
    ensures cut { (numbers : List ℕ) (groups : List (List ℕ)) → AllZip IsGroup numbers groups
        → cut (concat groups) ≡ groups }
    ensures accepted { (rule : RootRule) (octets : List ℕ) (capacity : ℕ) → AreOctets octets
        → octet_fault rule octets capacity ≡ None
        → IsEncoding rule (arcs_of_octets octets) octets × (length octets ≤ capacity) }
    ensures fits { (rule : RootRule) (arcs octets : List ℕ) (capacity : ℕ)
        → IsEncoding rule arcs octets → length octets ≤ capacity
        → octet_fault rule octets capacity ≡ None }
    ensures long { (rule : RootRule) (arcs octets : List ℕ) (capacity : ℕ)
        → IsEncoding rule arcs octets → capacity < length octets
        → octet_fault rule octets capacity ≡ Some Length }
    ensures denoted { (rule : RootRule) (arcs octets : List ℕ) → IsEncoding rule arcs octets
        → arcs_of_octets octets ≡ arcs }
    ensures only { (rule : RootRule) (a b octets : List ℕ) → IsEncoding rule a octets
        → IsEncoding rule b octets → a ≡ b }
{}

/// Each identifier has exactly one encoding, of as many octets as its size.
pub fn one_encoding()
    ensures one { (rule : RootRule) (arcs : List ℕ) → IsIdentifier rule arcs
        → IsEncoding rule arcs (encoding_of arcs) }
    ensures only { (rule : RootRule) (arcs a b : List ℕ) → IsEncoding rule arcs a
        → IsEncoding rule arcs b → a ≡ b }
    ensures size { (rule : RootRule) (arcs octets : List ℕ) → IsEncoding rule arcs octets
        → length octets ≡ size arcs }
{}

/// At a capacity of five octets or more, a second arc is rejected exactly if it is out of range.
#[tactic(auto, using(crate::proofs::Items::second_fits))]
pub fn second_fits()
    ensures { (rule : RootRule) (capacity first second : ℕ) → 5 ≤ capacity → first ≤ 2
        → arc_fault rule capacity (first ∷ []) second
        ≡ fault_if (nat_lt (max_second rule first) second) (ArcInvalid second) }
{}

/// An encoding is a prefix of another exactly if its arcs are a prefix of the other's.
pub fn prefixes()
    ensures { (rule : RootRule) (p x a b : List ℕ) → IsEncoding rule p a → IsEncoding rule x b
        → BeginsWith b a ↔ BeginsWith x p }
{}

/// A greater number takes at least as many octets. Encodings that differ in the last arc alone are in the order of
/// these arcs: in shortlex order, and, if they have the same length, in lexicographic order.
pub fn siblings()
    ensures width { (m n : ℕ) → m ≤ n → width m ≤ width n }
    ensures level { (rule : RootRule) (parent : List ℕ) (m n : ℕ) (x y : List ℕ)
        → IsEncoding rule (parent ++ m ∷ []) x → IsEncoding rule (parent ++ n ∷ []) y
        → length x ≡ length y → slice_cmp nat_cmp x y ≡ nat_cmp m n }
    ensures short { (rule : RootRule) (parent : List ℕ) (m n : ℕ) (x y : List ℕ)
        → IsEncoding rule (parent ++ m ∷ []) x → IsEncoding rule (parent ++ n ∷ []) y
        → shortlex_cmp x y ≡ nat_cmp m n }
{}

/// The lexicographic order of arcs is that of subidentifiers, a shorter one first. It is total, and a tie means equal
/// octets. An ancestor comes before its descendants, which are adjacent. If the subidentifiers at each index have the
/// same length, it is the order of the octets.
pub fn order_of_arcs()
    ensures parts { (rule : RootRule) (p x a b : List ℕ) → IsEncoding rule p a → IsEncoding rule x b
        → parts_cmp a b ≡ slice_cmp nat_cmp p x }
    ensures total { IsTotalOrder (slice_cmp nat_cmp) }
    ensures equal { (rule : RootRule) (p x a b : List ℕ) → IsEncoding rule p a → IsEncoding rule x b
        → (slice_cmp nat_cmp p x ≡ Equal) ↔ (a ≡ b) }
    ensures before { (p x : List ℕ) → BeginsWith x p → length p < length x
        → slice_cmp nat_cmp p x ≡ Less }
    ensures between { (p x y z : List ℕ) → BeginsWith x p → BeginsWith z p
        → slice_cmp nat_cmp y x ≢ Less → slice_cmp nat_cmp y z ≢ Greater → BeginsWith y p }
    ensures level { (rule : RootRule) (p x a b : List ℕ) → IsEncoding rule p a → IsEncoding rule x b
        → ((i : ℕ) (g h : List ℕ) → slice_get (cut a) i ≡ Some g → slice_get (cut b) i ≡ Some h → length g ≡ length h)
        → slice_cmp nat_cmp a b ≡ slice_cmp nat_cmp p x }
{}

/// The order by subidentifiers is total over any octets, valid or not. A tie means equal octets.
pub fn order_of_parts()
    ensures total { IsTotalOrder parts_cmp }
    ensures equal { (a b : List ℕ) → (parts_cmp a b ≡ Equal) ↔ (a ≡ b) }
{}

/// Identifiers have equal arcs exactly if their encodings are equal, and exactly if their printed texts are.
pub fn same_identifiers()
    ensures octets { (rule : RootRule) (a b x y : List ℕ) → IsEncoding rule a x
        → IsEncoding rule b y → (a ≡ b) ↔ (x ≡ y) }
    ensures texts { (rule : RootRule) (a b : List ℕ) → IsIdentifier rule a → IsIdentifier rule b
        → (a ≡ b) ↔ (text_of a ≡ text_of b) }
{}

/// What is printed denotes its arcs. A text is accepted exactly if it denotes arcs that fit, and is printed again
/// without its leading zeros.
pub fn texts_denote()
    ensures printed { (rule : RootRule) (arcs : List ℕ) → IsIdentifier rule arcs
        → Denotes rule (text_of arcs) arcs }
    ensures fits { (rule : RootRule) (capacity : ℕ) (text arcs : List ℕ) → Denotes rule text arcs
        → size arcs ≤ capacity → text_fault rule text capacity ≡ None }
    ensures accepted { (rule : RootRule) (capacity : ℕ) (text : List ℕ) → text_fault rule text capacity ≡ None
        → Denotes rule text (map number_of (components_of text))
        × (size (map number_of (components_of text)) ≤ capacity) }
    ensures only { (rule : RootRule) (text a b : List ℕ) → Denotes rule text a
        → Denotes rule text b → a ≡ b }
    ensures stripped { (rule : RootRule) (text arcs : List ℕ) → Denotes rule text arcs
        → text_of arcs ≡ strip text }
{}

/// A list of 32-bit numbers is accepted exactly if it is an identifier that fits.
pub fn items_denote()
    ensures fits { (rule : RootRule) (capacity : ℕ) (arcs : List ℕ) → IsIdentifier rule arcs → size arcs ≤ capacity
        → item_fault rule arcs capacity ≡ None }
    ensures accepted { (rule : RootRule) (capacity : ℕ) (items : List ℕ)
        → AllByRecursion (λ n. n ≤ max_arc) items → item_fault rule items capacity ≡ None
        → IsIdentifier rule items × (size items ≤ capacity) }
{}

/// The wide rule gives what the narrow one gives, except if octets begin with 120 or more, or the second
/// arc under 2 was rejected. What was accepted keeps its arcs and octets, and so its text and orders.
#[tactic(auto, using(crate::proofs::WideRule::wide_keeps))]
pub fn wide_keeps()
    ensures no_octets { (capacity : ℕ)
        → octet_answer Wide [] capacity ≡ octet_answer Narrow [] capacity }
    ensures octets { (x : ℕ) (xs : List ℕ) (capacity : ℕ) → x < 120
        → octet_answer Wide (x ∷ xs) capacity ≡ octet_answer Narrow (x ∷ xs) capacity }
    ensures texts { (text : List ℕ) (capacity : ℕ)
        → (RefusesSecond (map number_of (components_of text)) (text_fault Narrow text capacity) → ⊥)
        → text_answer Wide text capacity ≡ text_answer Narrow text capacity }
    ensures items { (items : List ℕ) (capacity : ℕ) → (RefusesSecond items (item_fault Narrow items capacity) → ⊥)
        → item_answer Wide items capacity ≡ item_answer Narrow items capacity }
    ensures octets_accepted { (octets arcs : List ℕ) (capacity : ℕ)
        → octet_answer Narrow octets capacity ≡ Ok arcs
        → octet_answer Wide octets capacity ≡ Ok arcs }
    ensures texts_accepted { (text arcs : List ℕ) (capacity : ℕ) → text_answer Narrow text capacity ≡ Ok arcs
        → text_answer Wide text capacity ≡ Ok arcs }
    ensures items_accepted { (items arcs : List ℕ) (capacity : ℕ) → item_answer Narrow items capacity ≡ Ok arcs
        → item_answer Wide items capacity ≡ Ok arcs }
    ensures encodings { (arcs octets : List ℕ) → IsEncoding Narrow arcs octets
        → IsEncoding Wide arcs octets }
    ensures denoted { (text arcs : List ℕ) → Denotes Narrow text arcs → Denotes Wide text arcs }
    ensures short_order { (a b v w x y : List ℕ) → IsEncoding Narrow a v → IsEncoding Narrow b w
        → IsEncoding Wide a x → IsEncoding Wide b y → shortlex_cmp x y ≡ shortlex_cmp v w }
    ensures list_order { (a b v w x y : List ℕ) → IsEncoding Narrow a v → IsEncoding Narrow b w
        → IsEncoding Wide a x → IsEncoding Wide b y
        → slice_cmp nat_cmp x y ≡ slice_cmp nat_cmp v w }
{}

/// The wide rule accepts what the narrow one rejects exactly if that denotes arcs under 2, the second above 39, and
/// fits.
#[tactic(auto, using(crate::proofs::WideRule::wide_adds))]
pub fn wide_adds()
    ensures octets { (octets : List ℕ) (capacity : ℕ) → AreOctets octets
        → (octet_fault Wide octets capacity ≡ None) × (octet_fault Narrow octets capacity ≢ None)
        ↔ ((arcs : List ℕ) × IsEncoding Wide arcs octets × IsPastNarrow arcs
        × (length octets ≤ capacity)) }
    ensures texts { (text : List ℕ) (capacity : ℕ)
        → (text_fault Wide text capacity ≡ None) × (text_fault Narrow text capacity ≢ None)
        ↔ ((arcs : List ℕ) × Denotes Wide text arcs × IsPastNarrow arcs × (size arcs ≤ capacity)) }
    ensures items { (items : List ℕ) (capacity : ℕ) → AllByRecursion (λ n. n ≤ max_arc) items
        → (item_fault Wide items capacity ≡ None) × (item_fault Narrow items capacity ≢ None)
        ↔ (IsIdentifier Wide items × IsPastNarrow items × (size items ≤ capacity)) }
{}

/// Under the wide rule no octets have an arc out of range.
#[tactic(auto, using(crate::proofs::Overflow::octets_in_range))]
pub fn octets_in_range()
    ensures { (arc : ℕ) (octets : List ℕ) (capacity : ℕ)
        → octet_fault Wide octets capacity ≢ Some (ArcInvalid arc) }
{}

/// Under the narrow rule the first two arcs take one octet.
pub fn narrow_root()
    ensures octets { (a b : ℕ) (later octets : List ℕ) → IsEncoding Narrow (a ∷ b ∷ later) octets
        → (groups : List (List ℕ)) × AllZip IsGroup later groups
        × (octets ≡ (40 * a + b) ∷ concat groups) }
    ensures encoding { (a b : ℕ) (later : List ℕ) (groups : List (List ℕ))
        → IsIdentifier Narrow (a ∷ b ∷ later) → AllZip IsGroup later groups
        → IsEncoding Narrow (a ∷ b ∷ later) ((40 * a + b) ∷ concat groups) }
    ensures size { (a b : ℕ) (later : List ℕ) → IsIdentifier Narrow (a ∷ b ∷ later)
        → size (a ∷ b ∷ later) ≡ 1 + sum_by width later }
{}

/// How many arcs octets have, and which subidentifier each is read from: the first two from the first one, a later arc
/// from one of its own.
pub fn parts()
    ensures count { (rule : RootRule) (arcs octets : List ℕ) → IsEncoding rule arcs octets
        → length arcs ≡ 1 + count_by (λ x. nat_lt x 128) octets }
    ensures parts { (rule : RootRule) (arcs octets : List ℕ) → IsEncoding rule arcs octets
        → length arcs ≡ 1 + length (cut octets) }
    ensures later { (rule : RootRule) (arcs octets : List ℕ) → IsEncoding rule arcs octets
        → drop 2 arcs ≡ map value_of (drop 1 (cut octets)) }
    ensures root { (rule : RootRule) (arcs octets : List ℕ) → IsEncoding rule arcs octets
        → take 2 arcs ≡ arcs_from (map value_of (take 1 (cut octets))) }
    ensures arc { (rule : RootRule) (arcs octets : List ℕ) (i : ℕ) → IsEncoding rule arcs octets
        → 2 ≤ i → slice_get arcs i ≡ option_map value_of (slice_get (cut octets) (i - 1)) }
{}

/// A child's octets are its parent's and one more subidentifier; a parent's are its child's without the last one. A
/// child's parent is the identifier that it was made of, and an identifier with a parent is a child of it. There is no
/// parent exactly if there is only one subidentifier.
pub fn tree()
    ensures child { (rule : RootRule) (arcs octets : List ℕ) (arc : ℕ) (group : List ℕ)
        → IsEncoding rule arcs octets → arc ≤ max_arc → IsGroup arc group
        → IsEncoding rule (arcs ++ arc ∷ []) (octets ++ group) }
    ensures parent { (rule : RootRule) (arcs octets : List ℕ) (arc : ℕ) → IsIdentifier rule arcs
        → IsEncoding rule (arcs ++ arc ∷ []) octets
        → (parts : List (List ℕ)) × (last : List ℕ) × (cut octets ≡ parts ++ last ∷ []) × IsEncoding rule arcs (concat parts) }
    ensures undone { (rule : RootRule) (arcs : List ℕ) (arc : ℕ) → IsIdentifier rule arcs
        → parent_of (child_of arcs arc) ≡ Some arcs }
    ensures again { (rule : RootRule) (arcs parent : List ℕ) → IsIdentifier rule arcs
        → parent_of arcs ≡ Some parent
        → IsIdentifier rule parent × (last : ℕ) × (last ≤ max_arc) × (child_of parent last ≡ arcs) }
    ensures octets { (rule : RootRule) (arcs parent octets : List ℕ) → IsEncoding rule arcs octets
        → parent_of arcs ≡ Some parent
        → let parts = cut octets in IsEncoding rule parent (concat (take (length parts - 1) parts)) }
    ensures none { (rule : RootRule) (arcs octets : List ℕ) → IsEncoding rule arcs octets
        → (parent_of arcs ≡ None) ↔ (length (cut octets) ≡ 1) }
{}

/// A printed text has at most four bytes for each octet.
pub fn printed_length()
    ensures { (rule : RootRule) (arcs octets : List ℕ) → IsEncoding rule arcs octets
        → length (text_of arcs) ≤ 4 * length octets }
{}

/// An encoding comes before those of its descendants, both in shortlex and in lexicographic order. In the latter, an
/// identifier and its descendants are adjacent.
pub fn ranges()
    ensures short { (rule : RootRule) (p x a b : List ℕ) → IsEncoding rule p a
        → IsEncoding rule x b → BeginsWith x p → length p < length x → shortlex_cmp a b ≡ Less }
    ensures before { (rule : RootRule) (p x a b : List ℕ) → IsEncoding rule p a
        → IsEncoding rule x b → BeginsWith x p → length p < length x
        → slice_cmp nat_cmp a b ≡ Less }
    ensures between { (rule : RootRule) (p x y z a b c d : List ℕ) → IsEncoding rule p a
        → IsEncoding rule x b → IsEncoding rule y c → IsEncoding rule z d → BeginsWith x p
        → BeginsWith z p → slice_cmp nat_cmp c b ≢ Less → slice_cmp nat_cmp c d ≢ Greater
        → BeginsWith y p }
{}

/// No input has the error `Overflow`.
#[tactic(auto, using(crate::proofs::Overflow::no_overflow))]
pub fn no_overflow()
    ensures octets { (rule : RootRule) (octets : List ℕ) (capacity : ℕ)
        → octet_fault rule octets capacity ≢ Some Overflow }
    ensures texts { (rule : RootRule) (capacity : ℕ) (text : List ℕ) → text_fault rule text capacity ≢ Some Overflow }
    ensures items { (rule : RootRule) (capacity : ℕ) (items : List ℕ) → item_fault rule items capacity ≢ Some Overflow }
{}

/// Text that begins with a digit is parsed as dotted text, whatever the names are, and without blanks around it as it
/// is.
pub fn no_name_begins_with_a_digit()
    ensures bare { (rows : Rows) (text : List ℕ) (capacity : ℕ) → IsTrue (begins_with_digit (bare text))
        → typed_answer rows text capacity ≡ text_answer root_rule (bare text) capacity }
    ensures whole { (rows : Rows) (text : List ℕ) (capacity : ℕ) → without_blanks text ≡ text
        → IsTrue (begins_with_digit text) → typed_answer rows text capacity ≡ text_answer root_rule text capacity }
{}

/// A name and arcs are parsed as the name's arcs and these, unless the name and the first of these are a name, too.
pub fn names_before_arcs()
    ensures { (rows : Rows) (name arcs later : List ℕ) (capacity : ℕ) → IsReadable name
        → led rows name ≡ Some arcs → AllByRecursion (λ arc. arc ≤ max_arc) later
        → ((n : ℕ) → n < length later → led rows (name ++ dotted (take (n + 1) later)) ≡ None)
        → typed_answer rows (name ++ dotted later) capacity ≡ text_answer root_rule (text_of (arcs ++ later)) capacity }
{}

/// What is displayed is parsed as the same identifier, if the names are readable.
pub fn displayed_is_parsed()
    ensures { (rows : Rows) (arcs : List ℕ) (capacity : ℕ) → AreReadable rows → IsIdentifier root_rule arcs
        → size arcs ≤ capacity → typed_answer rows (displayed rows arcs) capacity ≡ Ok arcs }
{}

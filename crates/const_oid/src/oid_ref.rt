//! Borrowed object identifiers.
ghost use Rattle.std.specs.Prelude.{◌≡◌, ◌≢◌, ◌*◌, ◌≤◌, ◌<◌, ◌↔◌, ◌+◌, ◌++◌, ℕ, List, length, min, slice_get, count_by, None, Some, Err, IfOk, IfSome, IsSome, IsTrue, MatchOption, Ok, [], codes, nat_eq, refl};
ghost use Rattle.std.specs.Option.{option_map};
ghost use Rattle.std.specs.Result.{result_err};
ghost use Rattle.std.specs.Fmt.{DisplaysOnOk, WritesStyledOnOk};
ghost use Rattle.std.specs.Cmp.{on_per, on_po, on_total, partial_equiv_from_equiv};
ghost use Rattle.std.specs.Cmp.Lexicographic.{pointwise, slice_cmp, nat_list_eq_equiv, nat_list_cmp_total, texts_po, texts_ties};
ghost use Rattle.std.specs.List.Sorted.{IsSortedByKey};
ghost use Rattle.std.specs.Ordering.{nat_cmp, is_lt};
ghost use Rattle.std.proofs.Props.{props};
ghost use Rattle.const_oid.specs.Base128.{AreOctets};
ghost use Rattle.const_oid.specs.Contents.{arcs_of_octets, cut, parts_fault, octet_answer, octet_fault, borrowed_capacity};
ghost use Rattle.const_oid.specs.Element.{element};
ghost use Rattle.const_oid.specs.Identifier.{root_rule, IsEncoding};
ghost use Rattle.const_oid.specs.Items.{item_answer};
ghost use Rattle.const_oid.specs.Output.{Returns, Writes, WritesAll};
ghost use Rattle.const_oid.specs.Text.{components_of, text_answer, text_of, wrong_index, Denotes};

use crate::arcs::{Arcs, arc_at};
use crate::base128::read_group;
use crate::compare::{begins_with, order_by_parts};
use crate::digits::{MAX_ARC_LEN, utf8, write_arc};
use crate::element::{element_len, split_element, write_element};
use crate::error::{Error, Result};
use crate::fast::comparison::{are_equal, order};
use crate::fast::lanes::count_below;
use crate::fast::steps::gallop;
use crate::parser::{fault_and_index, parse_inlined};
use crate::parts::{CONTINUED, without_last_part};
use crate::root::split_root;
use crate::text::{text_len, write_checked, write_text};
use crate::valid::check;
use crate::{Arc, outputs};
use std::cmp::Ordering;
use std::fmt;

/// An object identifier over the caller's contents octets, without tag and length.
///
/// Its octets are valid: they are the one encoding of its arcs (X.690, 8.19).
///
/// # Examples
///
/// ```
/// use const_oid::{ObjectIdentifier, ObjectIdentifierRef};
///
/// let oid: &ObjectIdentifierRef = [0x88, 0x37][..].try_into()?;
/// assert_eq!(*oid, ObjectIdentifier::new_unwrap("2.999"));
/// # Ok::<(), const_oid::Error>(())
/// ```
#[derive(Copy, Clone, Eq, Hash)]
pub struct ObjectIdentifierRef<'a> {
    /// The contents octets, which are valid.
    // In Rattle, the checker decodes a literal.
    pub ber: &'a [u8],
    ghost octets: { AreOctets ber.now } by { Prim.hlevel props },
    ghost valid: { parts_fault root_rule (cut ber.now) ≡ None },
}

impl<'a> ObjectIdentifierRef<'a> {
    ghost use Rattle.const_oid.specs.OidRef.{ref_slice, ref_octets, ref_arcs, ref_answer, ReadsElement};
    ghost use Rattle.const_oid.specs.Tree.{BeginsWith, parent_of};

    /// Decodes contents octets (X.690, 8.19).
    ///
    /// Tag and length are not removed: of an element `06 09 2A ..` the result is 0.6.9.42 and so on, and of the text
    /// `2.5` it is 1.10.46.53. Use [`read_element`](Self::read_element) and [`from_ascii_in`](Self::from_ascii_in).
    ///
    /// # Errors
    ///
    /// The first of these that applies:
    ///
    /// - [`Error::Empty`]: there is no octet;
    /// - by the first wrong subidentifier, [`Error::Base128`] if it begins with 0x80 (X.690, 8.19.2), or else
    ///   [`Error::ArcTooBig`] if it is above 4294967295, or above 4294967375 as the first one, which holds two arcs, or
    ///   else [`Error::Base128`]: the octets end within it;
    /// - [`Error::Length`]: there are more than `isize::MAX` octets, which no slice has.
    ///
    /// # Examples
    ///
    /// ```
    /// use const_oid::{Error, ObjectIdentifierRef};
    ///
    /// assert_eq!(ObjectIdentifierRef::from_bytes(&[0x88, 0x37])?.to_string(), "2.999");
    /// assert_eq!(ObjectIdentifierRef::from_bytes(&[0x88]), Err(Error::Base128));
    /// # Ok::<(), Error>(())
    /// ```
    #[inline(always)]
    pub fn from_bytes(ber: &'a [u8]) -> Result<Self>
        ensures answer { ref_answer result ≡ octet_answer root_rule ber.now borrowed_capacity }
        ensures slice { IfOk result (λ oid. ref_slice oid ≡ ber.entry) }
        ensures encoding { IfOk result (λ oid. IsEncoding root_rule (ref_arcs oid) ber.now) }
    {
        check(ber)?;
        if ber.len() > isize::MAX as usize {
            return Err(Error::Length);
        }
        Ok(ObjectIdentifierRef { ber })
    }

    /// Reads the element in DER that octets begin with: the tag 6, the length, and contents octets (X.690, 8.1, 8.19
    /// and 10.1). Returns what [`from_bytes`](Self::from_bytes) returns for the contents octets, and the octets after
    /// the element.
    ///
    /// Returns `None` if the octets begin with no such element: the tag is not 6, the length is indefinite or could be
    /// in fewer octets, or not all contents octets are there. No octets are `None` too. So a loop over elements runs
    /// `while !der.is_empty()`: `while let Some(..)` takes a wrong element for the end.
    ///
    /// # Examples
    ///
    /// ```
    /// use const_oid::{Error, ObjectIdentifierRef};
    ///
    /// let (oid, rest) = ObjectIdentifierRef::read_element(&[0x06, 0x02, 0x88, 0x37, 0x05, 0x00]).unwrap();
    /// assert_eq!((oid?.to_string().as_str(), rest), ("2.999", &[0x05, 0x00][..]));
    /// assert_eq!(ObjectIdentifierRef::read_element(&[0x06, 0x00]), Some((Err(Error::Empty), &[][..])));
    /// assert_eq!(ObjectIdentifierRef::read_element(&[0x06, 0x02, 0x88]), None);
    /// # Ok::<(), Error>(())
    /// ```
    #[inline]
    pub fn read_element(der: &'a [u8]) -> Option<(Result<Self>, &'a [u8])>
        ensures { MatchOption result ((contents rest : List ℕ) → der.now ≢ element contents ++ rest)
            (λ read. ReadsElement der.entry read.0 read.1) }
    {
        let (contents, rest) = split_element(der)?;
        Some((Self::from_bytes(contents), rest))
    }

    /// The identifier over valid octets.
    // erase: another body
    pub(crate) const fn from_checked(ber: &'a [u8]) -> Self
        requires { parts_fault root_rule (cut ber.now) ≡ None }
        ensures { ref_slice result ≡ ber.entry }
    {
        ObjectIdentifierRef { ber }
    }

    /// The contents octets, which are the caller's.
    pub const fn as_bytes(&self) -> &'a [u8]
        ensures slice { result ≡ ref_slice self.now }
        ensures encoding { IsEncoding root_rule (ref_arcs self.now) result.now }
    {
        self.ber
    }

    /// The length in octets of the element that [`write_element`](Self::write_element) writes, which has an example.
    // erase: const
    #[inline]
    pub fn element_len(&self) -> usize
        ensures { result ≡ length (element (ref_octets self.now)) }
    {
        element_len(self.ber)
    }

    /// Writes the element in DER, the tag 6, the length and the contents octets (X.690, 8.1, 8.19 and 10.1), to the
    /// start of `out`, and returns its length in octets. Returns `None` if it is longer than `out`, which is then kept.
    /// Ten octets more than the contents are always enough.
    ///
    /// # Examples
    ///
    /// ```
    /// let oid = const_oid::ObjectIdentifierRef::from_bytes(&[0x88, 0x37, 0x03])?;
    /// let mut out = [0; 6];
    /// assert_eq!((oid.element_len(), oid.write_element(&mut out)), (5, Some(5)));
    /// assert_eq!(out, [0x06, 0x03, 0x88, 0x37, 0x03, 0x00]);
    /// # Ok::<(), const_oid::Error>(())
    /// ```
    #[inline]
    pub fn write_element(&self, out: &mut [u8]) -> Option<usize>
        ensures written { Writes (element (ref_octets self.now)) out.old out.new result }
        ensures kept { result ≡ None → out.new ≡ out.old }
        ensures enough { length (ref_octets self.now) + 10 ≤ length out.old → IsSome result }
    {
        write_element(self.ber, out)
    }

    /// The arc at an index, counted from 0, or `None` past the last one. [`arcs`](Self::arcs) has an example.
    #[inline]
    pub fn arc(&self, index: usize) -> Option<Arc>
        ensures { result ≡ slice_get (ref_arcs self.now) index }
    {
        arc_at(self.ber, index)
    }

    /// All arcs, in order.
    ///
    /// # Examples
    ///
    /// ```
    /// let oid = const_oid::ObjectIdentifierRef::from_bytes(&[0x88, 0x37, 0x03])?;
    /// assert!(oid.arcs().eq([2, 999, 3]));
    /// assert_eq!((oid.len(), oid.arc(2), oid.arc(3)), (3, Some(3), None));
    /// # Ok::<(), const_oid::Error>(())
    /// ```
    pub fn arcs(&self) -> Arcs<'a>
        ensures { result ≡ ref_arcs self.now }
    {
        Arcs::new(self.ber)
    }

    /// The number of arcs, two or more. [`arcs`](Self::arcs) has an example.
    #[inline]
    pub fn len(&self) -> usize
        ensures { result ≡ length (ref_arcs self.now) }
    {
        count_below(self.ber, CONTINUED) + 1
    }

    /// The length in bytes of the text that `{}` writes, or `usize::MAX` if it is greater than that.
    /// [`encode_text`](Self::encode_text) has an example.
    #[inline]
    pub fn text_len(&self) -> usize
        ensures { result ≡ min (length (text_of (ref_arcs self.now))) usize.MAX }
    {
        text_len(self.arcs(), true, usize::MAX).unwrap_or(usize::MAX)
    }

    /// Writes the text that `{}` writes to the start of `out`, and returns its length in bytes. Returns `None` if it is
    /// longer than `out`, which is then unchanged. Four bytes for each octet are always enough.
    ///
    /// # Examples
    ///
    /// ```
    /// let oid = const_oid::ObjectIdentifierRef::from_bytes(&[0x88, 0x37, 0x03])?;
    /// let mut out = [0; 8];
    /// assert_eq!((oid.text_len(), oid.encode_text(&mut out)), (7, Some(7)));
    /// assert_eq!(&out, b"2.999.3\0");
    /// assert_eq!(oid.encode_str(&mut out), Some("2.999.3"));
    /// # Ok::<(), const_oid::Error>(())
    /// ```
    #[inline]
    pub fn encode_text(&self, out: &mut [u8]) -> Option<usize>
        ensures written { Writes (text_of (ref_arcs self.now)) out.old out.new result }
        ensures kept { result ≡ None → out.new ≡ out.old }
        ensures enough { 4 * length (ref_octets self.now) ≤ length out.old → IsSome result }
    {
        // An octet takes four bytes of text at most.
        if self.ber.len() > out.len() / 4 {
            text_len(self.arcs(), true, out.len())?;
        }
        Some(write_text(self.ber, out))
    }

    /// Writes the text as [`encode_text`](Self::encode_text) does, which has an example, and borrows it as a `str`.
    #[inline]
    pub fn encode_str<'o>(&self, out: &'o mut [u8]) -> Option<&'o str>
        ensures cases { Returns (text_of (ref_arcs self.now)) out.old result }
        ensures enough { 4 * length (ref_octets self.now) ≤ length out.old → IsSome result }
    {
        let len = self.encode_text(out)?;
        Some(utf8(out, len))
    }

    /// Decodes contents octets as [`from_bytes`](Self::from_bytes) does, writes their text to the start of `out` in the
    /// same pass, as `{}` writes it, and returns its length in bytes.
    ///
    /// Returns `None` if `out` has fewer bytes than four for each octet and eleven more; it is then unchanged. On `Ok`,
    /// what lies after the text is unchanged. On `Err`, `out` may be changed.
    #[inline(always)]
    pub fn text_from_bytes(ber: &[u8], out: &mut [u8]) -> Option<Result<usize>>
        ensures room { MatchOption result (length out.old < 4 * length ber.now + 11) (λ _. 4 * length ber.now + 11 ≤ length out.old) }
        ensures fault { IfSome result (λ written. result_err written ≡ octet_fault root_rule ber.now borrowed_capacity) }
        ensures written { IfSome result (λ written. IfOk written (WritesAll (text_of (arcs_of_octets ber.now)) out.old out.new)) }
        ensures kept { result ≡ None → out.new ≡ out.old }
    {
        if out.len() < MAX_ARC_LEN || ber.len() > (out.len() - MAX_ARC_LEN) / 4 {
            return None;
        }
        Some(write_checked(ber, out))
    }

    /// Parses dotted text in ASCII, of any length, and borrows the octets that it writes at the start of `out`. They
    /// are no more than the bytes of the text, which need not be UTF-8.
    ///
    /// # Errors
    ///
    /// Those of [`new`](crate::ObjectIdentifier::new), with [`Error::Length`] if the arcs take more octets than `out`
    /// has. It is then unchanged.
    ///
    /// # Examples
    ///
    /// ```
    /// use const_oid::{Error, ObjectIdentifierRef};
    ///
    /// let mut out = [0; 5];
    /// assert_eq!(ObjectIdentifierRef::from_ascii_in(b"2.999", &mut out)?.to_string(), "2.999");
    /// assert_eq!(ObjectIdentifierRef::from_ascii_in(b"2.999", &mut [0]), Err(Error::Length));
    /// assert_eq!(ObjectIdentifierRef::from_arcs_in(&[2, 999], &mut out)?.to_string(), "2.999");
    /// # Ok::<(), Error>(())
    /// ```
    #[tactic(auto, using(crate::proofs::Appended::taken, crate::proofs::Encodings::none_from_encoding, crate::proofs::Texts::denoted_from_answer))]
    pub fn from_ascii_in(text: &[u8], out: &'a mut [u8]) -> Result<Self>
        ensures answer { ref_answer result ≡ text_answer root_rule text.now (length out.old) }
        ensures denoted { IfOk result (λ oid. Denotes root_rule text.now (ref_arcs oid)) }
        ensures start { IfOk result (λ oid. (ref_slice oid).ref_ptr ≡ out.entry.ref_ptr) }
        ensures enough { length text.now ≤ length out.old → result ≢ Err Error.Length }
    {
        let len = outputs::bytes_from_ascii(text, out)?;
        Ok(ObjectIdentifierRef::from_checked(&out[..len]))
    }

    /// The index of the first wrong component of dotted text, counted from 0, by the rules of
    /// [`new`](crate::ObjectIdentifier::new) for identifiers of any length. `None` exactly if the text denotes one. A
    /// single component has the index 0. If only a dot at the end is wrong, it is that of the component before it.
    ///
    /// # Examples
    ///
    /// ```
    /// use const_oid::ObjectIdentifierRef;
    ///
    /// assert_eq!(ObjectIdentifierRef::wrong_component(b"1.2.x"), Some(2));
    /// assert_eq!(ObjectIdentifierRef::wrong_component(b"2.999"), None);
    /// ```
    pub fn wrong_component(text: &[u8]) -> Option<usize>
        ensures none { result ≡ None ↔ ((arcs : List ℕ) × Denotes root_rule text.now arcs) }
        ensures index { IfSome result (λ index. index ≡ wrong_index [] (components_of text.now)) }
    {
        match parse_inlined(text, &mut [], usize::MAX) {
            Ok(_) => None,
            Err(wrong) => fault_and_index(text, wrong).1,
        }
    }

    /// Encodes arcs, any number of them, and borrows the octets that it writes at the start of `out`. They are at most
    /// five for each arc. [`from_ascii_in`](Self::from_ascii_in) has an example.
    ///
    /// # Errors
    ///
    /// Those of [`from_arcs`](crate::ObjectIdentifier::from_arcs), with [`Error::Length`] if the arcs take more octets
    /// than `out` has. It is then unchanged.
    #[tactic(auto, using(crate::proofs::Appended::taken, crate::proofs::Encodings::none_from_encoding))]
    pub fn from_arcs_in(arcs: &[Arc], out: &'a mut [u8]) -> Result<Self>
        ensures answer { ref_answer result ≡ item_answer root_rule arcs.now (length out.old) }
        ensures start { IfOk result (λ oid. (ref_slice oid).ref_ptr ≡ out.entry.ref_ptr) }
        ensures enough { 5 * length arcs.now ≤ length out.old → result ≢ Err Error.Length }
    {
        let len = outputs::bytes_from_arcs(arcs, out)?;
        Ok(ObjectIdentifierRef::from_checked(&out[..len]))
    }

    /// The parent: all arcs except the last. Its octets are a prefix of these. `None` if there are only two arcs.
    ///
    /// # Examples
    ///
    /// ```
    /// let oid = const_oid::ObjectIdentifierRef::from_bytes(&[0x88, 0x37, 0x03])?;
    /// let parent = oid.parent().unwrap();
    /// assert_eq!(parent.to_string(), "2.999");
    /// assert!(oid.starts_with(parent) && oid.strip_prefix(parent).unwrap().eq([3]));
    /// assert!(parent.cmp_arcs(oid).is_lt());
    /// # Ok::<(), const_oid::Error>(())
    /// ```
    #[inline]
    pub fn parent(&self) -> Option<ObjectIdentifierRef<'a>>
        ensures arcs { option_map ref_arcs result ≡ parent_of (ref_arcs self.now) }
        ensures prefix { IfSome result (λ oid. BeginsWith (ref_octets self.now) (ref_octets oid)) }
    {
        let prefix = without_last_part(self.ber);
        if prefix.is_empty() {
            return None;
        }
        Some(ObjectIdentifierRef::from_checked(prefix))
    }

    /// Whether the arcs begin with all those of another identifier: whether the other one is this one or an ancestor of
    /// it. [`parent`](Self::parent) has an example.
    // erase: const
    #[inline(always)]
    pub fn starts_with(&self, other: &ObjectIdentifierRef<'_>) -> bool
        ensures { IsTrue result ↔ BeginsWith (ref_arcs self.now) (ref_arcs other.now) }
    {
        begins_with(self.ber, other.ber)
    }

    /// The arcs after those of another identifier, or `None` if the arcs do not begin with those. They may be none.
    /// [`parent`](Self::parent) has an example.
    #[inline]
    pub fn strip_prefix(&self, other: &ObjectIdentifierRef<'_>) -> Option<Arcs<'a>>
        ensures { MatchOption result
            (BeginsWith (ref_arcs self.now) (ref_arcs other.now) → ⊥)
            (λ rest. ref_arcs self.now ≡ ref_arcs other.now ++ rest) }
    {
        if !begins_with(self.ber, other.ber) {
            return None;
        }
        Some(Arcs::later(&self.ber[other.ber.len()..]))
    }

    /// Compares the arcs lexicographically, a prefix before what begins with it. SNMP orders names so (RFC 3416).
    /// [`parent`](Self::parent) has an example.
    // erase: const
    #[inline]
    pub fn cmp_arcs(&self, other: &ObjectIdentifierRef<'_>) -> Ordering
        ensures { result ≡ slice_cmp nat_cmp (ref_arcs self.now) (ref_arcs other.now) }
    {
        order_by_parts(self.ber, other.ber)
    }

    /// The range of indices of a sorted list at which the arcs begin with those of this identifier, itself included:
    /// from the first index up to, but not including, the second. If there are none, both are the index at which this
    /// one would be inserted.
    ///
    /// The list is sorted by `cmp`, so by octets, and may hold an identifier more than once. On another list, such as
    /// one sorted by `cmp_arcs`, the range is within the list, and which one is unspecified.
    ///
    /// # Examples
    ///
    /// ```
    /// use const_oid::{ObjectIdentifier, ObjectIdentifierRef};
    ///
    /// let oids = ["2.5.4", "2.5.4.3", "2.5.4.6", "2.5.29"].map(ObjectIdentifier::new_unwrap);
    /// let mut sorted: Vec<&ObjectIdentifierRef> = oids.iter().map(|oid| oid.as_oid_ref()).collect();
    /// sorted.sort();
    /// let (start, end) = oids[0].subtree(&sorted);
    /// assert!(sorted[start..end].iter().all(|oid| oid.starts_with(&oids[0])) && end - start == 3);
    /// ```
    #[inline]
    pub fn subtree(&self, sorted: &[ObjectIdentifierRef<'_>]) -> (usize, usize)
        requires { IsSortedByKey ref_octets (slice_cmp nat_cmp) sorted.now }
        ensures bounds { (result.0 ≤ result.1) × (result.1 ≤ length sorted.now) }
        ensures start { result.0 ≡ count_by (λ oid. is_lt (slice_cmp nat_cmp (ref_octets oid) (ref_octets self.now))) sorted.now }
        ensures inside { (k : ℕ) → IfSome (slice_get sorted.now k) (λ oid.
            BeginsWith (ref_arcs oid) (ref_arcs self.now) ↔ ((result.0 ≤ k) × (k < result.1))) }
    {
        let start = sorted.partition_point(|oid| order(oid.as_bytes(), self.ber).is_lt());
        let len = gallop(&sorted[start..], |oid| oid.as_bytes().starts_with(self.ber));
        (start, start + len)
    }

    /// Writes the text, in chunks: that of 40 octets or fewer is one.
    // Not over `arcs()`, for fewer instructions: the row "Display" of SPEED.
    #[inline]
    fn write_in_chunks<W: fmt::Write>(&self, f: &mut fmt::Formatter<W>) -> fmt::Result
        ensures { WritesStyledOnOk W.write_str_gives f.old result (text_of (ref_arcs self.now)) f.new }
    {
        let mut text = [0; CHUNK_BYTES];
        let (root, mut rest) = read_group(self.ber);
        let (first, mut arc) = split_root(root);
        text[0] = b'0' + first as u8;
        let mut at = 1;
        // An arc is written at one place, which takes the most code.
        loop {
            at = write_arc(arc, &mut text, at);
            if rest.is_empty() {
                return f.write_str(utf8(&text, at));
            }
            if at > CHUNK_BYTES - MAX_ARC_LEN {
                f.write_str(utf8(&text, at))?;
                at = 0;
            }
            let (number, after) = read_group(rest);
            arc = number as Arc;
            rest = after;
        }
    }
}

/// The most octets whose text is written at once.
const CHUNK_OCTETS: usize = 40;

/// The most bytes of that text, four for each octet, and room for one more arc.
const CHUNK_BYTES: usize = 4 * CHUNK_OCTETS + MAX_ARC_LEN;

/// The arcs in decimal, joined by dots. Width, fill, sign and precision are ignored: to fill a column, print
/// `oid.to_string()`.
impl fmt::Display for ObjectIdentifierRef<'_> {
    ghost use Rattle.const_oid.specs.OidRef.{ref_arcs};

    ghost output = { λ oid. Some (text_of (ref_arcs oid)) };

    ghost styled_output = { λ oid _. Some (text_of (ref_arcs oid)) };

    fn fmt<W: fmt::Write>(&self, f: &mut fmt::Formatter<W>) -> fmt::Result {
        self.write_in_chunks(f)
    }
}

impl fmt::Debug for ObjectIdentifierRef<'_> {
    ghost use Rattle.const_oid.specs.OidRef.{ref_arcs};

    ghost debug_output = { λ oid. Some (codes "ObjectIdentifierRef(" ++ (text_of (ref_arcs oid) ++ codes ")")) };

    fn fmt<W: fmt::Write>(&self, f: &mut fmt::Formatter<W>) -> fmt::Result
        ensures writes { DisplaysOnOk W.write_str_gives f.old result (Some (codes "ObjectIdentifierRef(" ++ (text_of (ref_arcs self.now) ++ codes ")"))) f.new }
        ensures styled { WritesStyledOnOk W.write_str_gives f.old result (codes "ObjectIdentifierRef(" ++ (text_of (ref_arcs self.now) ++ codes ")")) f.new }
    {
        f.write_str("ObjectIdentifierRef(")?;
        self.write_in_chunks(f)?;
        f.write_str(")")
    }
}

impl PartialEq for ObjectIdentifierRef<'_> {
    ghost use Rattle.const_oid.specs.OidRef.{ref_octets, ref_arcs};

    ghost eq = { λ a b. pointwise nat_eq (ref_octets a) (ref_octets b) };

    ghost laws = { on_per ref_octets (partial_equiv_from_equiv nat_list_eq_equiv) };

    // erase: another body
    fn eq(&self, other: &Self) -> bool
        ensures value { result ≡ pointwise nat_eq (ref_octets self.now) (ref_octets other.now) }
        ensures octets { IsTrue result ↔ (ref_octets self.now ≡ ref_octets other.now) }
        ensures arcs { IsTrue result ↔ (ref_arcs self.now ≡ ref_arcs other.now) }
    {
        are_equal(self.ber, other.ber)
    }
}

impl PartialOrd for ObjectIdentifierRef<'_> {
    ghost use Rattle.const_oid.specs.OidRef.{ref_octets};

    ghost partial_cmp = { λ a b. Some (slice_cmp nat_cmp (ref_octets a) (ref_octets b)) };

    ghost laws = { on_po ref_octets texts_po };

    fn partial_cmp(&self, other: &Self) -> Option<Ordering> {
        Some(self.cmp(other))
    }
}

/// The lexicographic order of octets, a prefix before what begins with it.
///
/// In a list sorted so, a subtree is contiguous. It is not the order of SNMP (RFC 3416), which is that of arcs: see
/// [`cmp_arcs`](ObjectIdentifierRef::cmp_arcs).
impl Ord for ObjectIdentifierRef<'_> {
    ghost use Rattle.const_oid.specs.OidRef.{ref_octets};

    ghost cmp = { λ a b. slice_cmp nat_cmp (ref_octets a) (ref_octets b) };

    ghost total = { on_total ref_octets nat_list_cmp_total };

    ghost matches_partial_cmp = { λ a b. refl };

    ghost matches_eq = { λ a b. texts_ties (ref_octets a) (ref_octets b) };

    // erase: another body
    fn cmp(&self, other: &Self) -> Ordering
        ensures { result ≡ slice_cmp nat_cmp (ref_octets self.now) (ref_octets other.now) }
    {
        order(self.ber, other.ber)
    }
}

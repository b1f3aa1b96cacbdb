//! Owned object identifiers.

ghost use Rattle.std.specs.Prelude.{◌≡◌, ◌≢◌, ◌+◌, ◌*◌, ◌<◌, ◌≤◌, ◌↔◌, ℕ, List, length, min, slice_get, None, Some, IfOk, IsSome, IsTrue, MatchOption, MatchResult, ◌++◌, codes, nat_eq, refl};
ghost use Rattle.std.specs.Iterator.{IsFiniteIterable};
ghost use Rattle.std.specs.Cmp.{on_per, on_total, partial_equiv_from_equiv};
ghost use Rattle.std.specs.Cmp.Lexicographic.{pointwise, slice_cmp, nat_list_eq_equiv};
ghost use Rattle.std.specs.Option.{option_map};
ghost use Rattle.std.specs.Fmt.{DisplaysOnOk, WritesStyledOnOk};
ghost use Rattle.std.specs.Ordering.{nat_cmp};
ghost use Rattle.const_oid.specs.Buffer.{buffer_octets};
ghost use Rattle.const_oid.specs.Contents.{cut, parts_fault, octet_answer};
ghost use Rattle.const_oid.specs.Element.{element};
ghost use Rattle.const_oid.specs.Output.{Returns, Writes};
ghost use Rattle.const_oid.specs.Text.{text_of, text_fault, text_answer, Denotes, FollowsArc};
ghost use Rattle.const_oid.specs.Identifier.{root_rule, default_capacity, IsEncoding, size};
ghost use Rattle.const_oid.specs.Items.{TakesItems};
ghost use Rattle.const_oid.specs.Tree.{BeginsWith, child_of, parent_of};

use crate::Arc;
use crate::arcs::Arcs;
use crate::buffer::{Buffer, DEFAULT_CAPACITY};
use crate::element::split_element;
use crate::error::{Error, Result};
use crate::fast::comparison::are_equal;
use crate::oid_ref::ObjectIdentifierRef;
use std::cmp::Ordering;
use std::fmt;
use std::str::FromStr;

/// An owned object identifier. It holds its contents octets in itself, without tag and length: at most `MAX_SIZE`, and
/// never more than 255.
///
/// Its octets are valid: they are the one encoding of its arcs (X.690, 8.19).
///
/// # Examples
///
/// ```
/// use const_oid::ObjectIdentifier;
///
/// const CN: ObjectIdentifier = ObjectIdentifier::new_unwrap("2.5.4.3");
/// assert_eq!("2.5.4.3".parse(), Ok(CN));
/// assert_eq!(format!("{CN} {CN:?}"), "2.5.4.3 ObjectIdentifier(2.5.4.3)");
/// ```
///
/// The order of `<`, `cmp` and `BTreeMap` is by the number of octets, and then by octets. SNMP has that of arcs:
/// [`cmp_arcs`](ObjectIdentifierRef::cmp_arcs), or keys of type [`ByArcs`](crate::ByArcs).
///
/// ```
/// use const_oid::{ByArcs, ObjectIdentifier};
///
/// let [a, b] = ["1.3.256", "1.3.6.1.2"].map(ObjectIdentifier::new_unwrap);
/// assert!(a < b && ByArcs(a) > ByArcs(b));
/// ```
#[derive(Copy, Clone, Eq, PartialOrd, Hash)]
pub struct ObjectIdentifier<const MAX_SIZE: usize> {
    ber: Buffer<MAX_SIZE>,
    ghost valid: { parts_fault root_rule (cut (buffer_octets ber)) ≡ None },
}

/// An identifier of the default capacity, 39 octets.
pub type Oid = ObjectIdentifier<DEFAULT_CAPACITY>;

impl ObjectIdentifier<DEFAULT_CAPACITY> {
    ghost use Rattle.const_oid.specs.Oid.{oid_octets, oid_arcs, oid_answer, ReadsOwned};

    /// The default capacity, 39 octets.
    pub const MAX_SIZE: usize = DEFAULT_CAPACITY;

    /// Parses dotted text, such as `1.2.840.10045.2.1`, with any number of leading zeros in an arc.
    ///
    /// # Errors
    ///
    /// The dots cut the text into components. The first wrong one gives the error, by the first of these that applies:
    ///
    /// - [`Error::ArcTooBig`]: its leading digits are a number above 4294967295;
    /// - [`Error::DigitExpected`]: it has another byte than a digit, or it is empty and the first of several;
    /// - [`Error::RepeatedDot`]: it is empty, and not the first one;
    /// - [`Error::TrailingDot`]: an empty last component follows it;
    /// - [`Error::ArcInvalid`]: it is the first one and above 2, or the second, above 39 and after 0 or 1 (X.660);
    /// - [`Error::Length`]: the arcs up to it take more than 39 octets (X.690, 8.19);
    /// - [`Error::Empty`]: it is the only one, as in `1`.
    ///
    /// # Examples
    ///
    /// ```
    /// use const_oid::{Error, ObjectIdentifier};
    ///
    /// let oid = ObjectIdentifier::new("2.999.3")?;
    /// assert_eq!(oid.as_bytes(), [0x88, 0x37, 0x03]);
    /// assert_eq!(ObjectIdentifier::new("1.40"), Err(Error::ArcInvalid { arc: 40 }));
    /// # Ok::<(), Error>(())
    /// ```
    // erase: const
    pub fn new(s: &str) -> Result<Self>
        ensures answer { oid_answer result ≡ text_answer root_rule s.now default_capacity }
        ensures denoted { IfOk result (λ oid. Denotes root_rule s.now (oid_arcs oid)) }
    {
        Self::new_sized(s)
    }

    /// Parses dotted text that is known to be valid, such as a literal. [`ObjectIdentifier`] has an example.
    ///
    /// # Panics
    ///
    /// If the text is invalid. A constant of an invalid text does not compile.
    // In Rattle, the checker rejects an invalid text, so nothing panics.
    // erase: const
    pub fn new_unwrap(s: &str) -> Self
        requires { text_fault root_rule s.now default_capacity ≡ None }
        ensures { Denotes root_rule s.now (oid_arcs result) }
    {
        match Self::new(s) {
            Ok(oid) => oid,
            // erase: another body
            Err(_) => unreachable!("not the text of an object identifier"),
        }
    }

    /// Encodes the arcs that an iterator gives. The iterator must end.
    ///
    /// # Errors
    ///
    /// The first wrong arc gives the error:
    ///
    /// - [`Error::ArcInvalid`]: it is the first one and above 2, or the second, above 39 and after 0 or 1 (X.660);
    /// - [`Error::Length`]: the arcs up to it take more than 39 octets.
    ///
    /// If none is wrong, [`Error::Empty`]: there are fewer than two. Which arcs after a wrong one are read is
    /// unspecified.
    ///
    /// # Examples
    ///
    /// ```
    /// use const_oid::{Error, ObjectIdentifier};
    ///
    /// assert_eq!(ObjectIdentifier::from_arcs([2, 999])?.to_string(), "2.999");
    /// assert_eq!(ObjectIdentifier::from_arcs([3, 1]), Err(Error::ArcInvalid { arc: 3 }));
    /// # Ok::<(), Error>(())
    /// ```
    pub fn from_arcs<I: IntoIterator<Item = Arc>>(arcs: I) -> Result<Self>
    where
        I::IntoIter: Drop,
        // The iterator can be asked for all of its items, and ends. For an array, a slice's
        // `iter().copied()` or a `Vec`, whose items are known, the checker finds the exact result by
        // itself; for `Arcs` the lemma `exact_answer` gives it.
        requires { IsFiniteIterable I.into_iter_gives I.IntoIter.can_next I.IntoIter.remaining arcs }
        ensures takes { (iterator : I.IntoIter) × I.into_iter_gives arcs iterator
            × TakesItems root_rule default_capacity I.IntoIter.next_gives iterator (oid_answer result) }
    {
        Self::from_arcs_sized(arcs)
    }

    /// Decodes at most 39 contents octets (X.690, 8.19).
    ///
    /// Tag and length are not removed: an element `06 09 2A ..` is no error, but 0.6.9.42 and so on, and neither is the
    /// text `2.5`, but 1.10.46.53. Use [`read_element`](Self::read_element) and [`from_ascii`](Self::from_ascii).
    ///
    /// # Errors
    ///
    /// Those of [`ObjectIdentifierRef::from_bytes`], which has an example, and [`Error::Length`] past 39 octets.
    #[inline(always)]
    pub fn from_bytes(ber_bytes: &[u8]) -> Result<Self>
        ensures answer { oid_answer result ≡ octet_answer root_rule ber_bytes.now default_capacity }
        ensures octets { IfOk result (λ oid. oid_octets oid ≡ ber_bytes.now) }
        ensures encoding { IfOk result (λ oid. IsEncoding root_rule (oid_arcs oid) ber_bytes.now) }
    {
        Self::from_bytes_sized(ber_bytes)
    }

    /// Reads the element in DER that octets begin with, as [`ObjectIdentifierRef::read_element`] does, with the errors
    /// of [`from_bytes`](Self::from_bytes).
    #[inline]
    pub fn read_element(der: &[u8]) -> Option<(Result<Self>, &[u8])>
        ensures { MatchOption result ((contents rest : List ℕ) → der.now ≢ element contents ++ rest)
            (λ read. ReadsOwned der.entry read.0 read.1) }
    {
        Self::read_element_sized(der)
    }
}

impl FromStr for ObjectIdentifier<DEFAULT_CAPACITY> {
    ghost use Rattle.const_oid.specs.Oid.{oid_answer};

    type Err = Error;

    ghost from_str_gives = { λ text result. oid_answer result ≡ text_answer root_rule text default_capacity };

    /// Parses dotted text, as [`new`](Self::new) does.
    fn from_str(s: &str) -> Result<Self> {
        Self::new(s)
    }
}

impl<const MAX_SIZE: usize> ObjectIdentifier<MAX_SIZE> {
    ghost use Rattle.const_oid.specs.Oid.{oid_octets, oid_arcs, oid_answer, ReadsOwned};
    ghost use Rattle.const_oid.specs.OidRef.{ref_octets, ref_arcs};

    /// Decodes at most `MAX_SIZE` contents octets (X.690, 8.19), and never more than 255.
    ///
    /// # Errors
    ///
    /// Those of [`from_bytes`](Self::from_bytes), with [`Error::Length`] if there are more octets than fit.
    /// [`new_sized`](Self::new_sized) has an example of it.
    #[inline(always)]
    pub fn from_bytes_sized(ber_bytes: &[u8]) -> Result<Self>
        ensures answer { oid_answer result ≡ octet_answer root_rule ber_bytes.now (min MAX_SIZE 255) }
        ensures octets { IfOk result (λ oid. oid_octets oid ≡ ber_bytes.now) }
        ensures encoding { IfOk result (λ oid. IsEncoding root_rule (oid_arcs oid) ber_bytes.now) }
    {
        Self::try_from_ref(ObjectIdentifierRef::from_bytes(ber_bytes)?)
    }

    /// Reads the element in DER that octets begin with, as [`ObjectIdentifierRef::read_element`] does, with the errors
    /// of [`from_bytes_sized`](Self::from_bytes_sized).
    #[inline]
    pub fn read_element_sized(der: &[u8]) -> Option<(Result<Self>, &[u8])>
        ensures { MatchOption result ((contents rest : List ℕ) → der.now ≢ element contents ++ rest)
            (λ read. ReadsOwned der.entry read.0 read.1) }
    {
        let (contents, rest) = split_element(der)?;
        Some((Self::from_bytes_sized(contents), rest))
    }

    /// Parses dotted text into at most `MAX_SIZE` octets, and never more than 255.
    ///
    /// # Errors
    ///
    /// Those of [`new`](Self::new), with [`Error::Length`] if the arcs take more octets than fit.
    ///
    /// # Examples
    ///
    /// ```
    /// use const_oid::{Error, ObjectIdentifier};
    ///
    /// assert!(ObjectIdentifier::<3>::new_sized("2.999.3").is_ok());
    /// assert_eq!(ObjectIdentifier::<2>::new_sized("2.999.3"), Err(Error::Length));
    /// ```
    // erase: const
    pub fn new_sized(s: &str) -> Result<Self>
        ensures answer { oid_answer result ≡ text_answer root_rule s.now (min MAX_SIZE 255) }
        ensures denoted { IfOk result (λ oid. Denotes root_rule s.now (oid_arcs oid)) }
    {
        Self::from_ascii(s.as_bytes())
    }

    /// Parses dotted text in ASCII as [`new_sized`](Self::new_sized) does. The bytes need not be UTF-8: one past ASCII
    /// is an error, since it is not a digit.
    ///
    /// # Errors
    ///
    /// Those of [`new_sized`](Self::new_sized).
    ///
    /// # Examples
    ///
    /// ```
    /// use const_oid::{Error, ObjectIdentifier};
    ///
    /// let oid: Result<ObjectIdentifier, Error> = ObjectIdentifier::from_ascii(b"2.\xff");
    /// assert_eq!(oid, Err(Error::DigitExpected { actual: 0xff }));
    /// ```
    // erase: const
    #[tactic(auto, using(crate::proofs::Encodings::none_from_encoding, crate::proofs::Texts::denoted_from_answer))]
    #[inline(always)]
    pub fn from_ascii(text: &[u8]) -> Result<Self>
        ensures answer { oid_answer result ≡ text_answer root_rule text.now (min MAX_SIZE 255) }
        ensures denoted { IfOk result (λ oid. Denotes root_rule text.now (oid_arcs oid)) }
    {
        match Buffer::parsed(text) {
            Ok(ber) => Ok(ObjectIdentifier { ber }),
            Err(fault) => Err(fault),
        }
    }

    /// The identifier with the arcs of another one and then those of a text, each after a dot.
    // erase: const
    pub(crate) fn parse_below(above: &Oid, text: &[u8]) -> Result<Self>
        requires { FollowsArc text.now }
        ensures { oid_answer result ≡ text_answer root_rule (text_of (oid_arcs above.now) ++ text.now) (min MAX_SIZE 255) }
    {
        match Buffer::parsed_below(above.as_bytes(), text) {
            Ok(ber) => Ok(ObjectIdentifier { ber }),
            Err(fault) => Err(fault),
        }
    }

    /// Encodes the arcs that an iterator gives in at most `MAX_SIZE` octets, and never more than 255. The iterator must
    /// end.
    ///
    /// # Errors
    ///
    /// Those of [`from_arcs`](Self::from_arcs), with [`Error::Length`] if the arcs take more octets than fit.
    /// [`new_sized`](Self::new_sized) has an example of it.
    pub fn from_arcs_sized<I: IntoIterator<Item = Arc>>(arcs: I) -> Result<Self>
    where
        I::IntoIter: Drop,
        // The iterator can be asked for all of its items, and ends.
        requires { IsFiniteIterable I.into_iter_gives I.IntoIter.can_next I.IntoIter.remaining arcs }
        ensures takes { (iterator : I.IntoIter) × I.into_iter_gives arcs iterator
            × TakesItems root_rule (min MAX_SIZE 255) I.IntoIter.next_gives iterator (oid_answer result) }
    {
        let ber = Buffer::encoded(arcs)?;
        Ok(ObjectIdentifier { ber })
    }

    /// Copies a borrowed identifier, or returns [`Error::Length`] if its octets do not fit.
    #[inline(always)]
    pub fn try_from_ref(oid_ref: ObjectIdentifierRef<'_>) -> Result<Self>
        ensures fits { let count = length (ref_octets oid_ref.entry) in
            MatchResult result (λ _. count ≤ min MAX_SIZE 255)
            (λ fault. (fault ≡ Error.Length) × (min MAX_SIZE 255 < count)) }
        ensures octets { IfOk result (λ oid. oid_octets oid ≡ ref_octets oid_ref.entry) }
        ensures arcs { IfOk result (λ oid. oid_arcs oid ≡ ref_arcs oid_ref.entry) }
    {
        let octets = oid_ref.as_bytes();
        if octets.len() > MAX_SIZE.min(255) {
            return Err(Error::Length);
        }
        let ber = Buffer::copied(octets);
        Ok(ObjectIdentifier { ber })
    }

    /// The contents octets.
    // erase: const
    pub fn as_bytes(&self) -> &[u8]
        ensures octets { result.now ≡ oid_octets self.now }
        ensures encoding { IsEncoding root_rule (oid_arcs self.now) result.now }
        ensures fits { length result.now ≤ min MAX_SIZE 255 }
    {
        self.ber.as_bytes()
    }

    /// The borrowed identifier over the same octets.
    // erase: const
    pub fn as_oid_ref(&self) -> ObjectIdentifierRef<'_>
        ensures octets { ref_octets result ≡ oid_octets self.now }
        ensures arcs { ref_arcs result ≡ oid_arcs self.now }
    {
        // erase: another body
        ObjectIdentifierRef::from_checked(self.as_bytes())
    }

    /// The length in octets of the element that [`write_element`](Self::write_element) writes.
    // erase: const
    pub fn element_len(&self) -> usize
        ensures { result ≡ length (element (oid_octets self.now)) }
    {
        self.as_oid_ref().element_len()
    }

    /// Writes the element in DER as [`ObjectIdentifierRef::write_element`] does, which has an example. Three octets
    /// more than the contents are always enough.
    pub fn write_element(&self, out: &mut [u8]) -> Option<usize>
        ensures written { Writes (element (oid_octets self.now)) out.old out.new result }
        ensures kept { result ≡ None → out.new ≡ out.old }
        ensures enough { length (oid_octets self.now) + 3 ≤ length out.old → IsSome result }
    {
        self.as_oid_ref().write_element(out)
    }

    /// The arc at an index, counted from 0, or `None` past the last one. [`ObjectIdentifierRef::arcs`] has an example.
    pub fn arc(&self, index: usize) -> Option<Arc>
        ensures { result ≡ slice_get (oid_arcs self.now) index }
    {
        self.as_oid_ref().arc(index)
    }

    /// All arcs, in order. [`ObjectIdentifierRef::arcs`] has an example.
    pub fn arcs(&self) -> Arcs<'_>
        ensures { result ≡ oid_arcs self.now }
    {
        self.as_oid_ref().arcs()
    }

    /// The number of arcs, two or more. [`ObjectIdentifierRef::arcs`] has an example.
    pub fn len(&self) -> usize
        ensures { result ≡ length (oid_arcs self.now) }
    {
        self.as_oid_ref().len()
    }

    /// The length in bytes of the text that `{}` writes. [`ObjectIdentifierRef::encode_text`] has an example.
    pub fn text_len(&self) -> usize
        ensures { result ≡ length (text_of (oid_arcs self.now)) }
    {
        self.as_oid_ref().text_len()
    }

    /// Writes the text that `{}` writes as [`ObjectIdentifierRef::encode_text`] does, which has an example.
    pub fn encode_text(&self, out: &mut [u8]) -> Option<usize>
        ensures written { Writes (text_of (oid_arcs self.now)) out.old out.new result }
        ensures kept { result ≡ None → out.new ≡ out.old }
        ensures enough { 4 * length (oid_octets self.now) ≤ length out.old → IsSome result }
    {
        self.as_oid_ref().encode_text(out)
    }

    /// Writes the text as [`encode_text`](Self::encode_text) does, and borrows it as a `str`.
    pub fn encode_str<'o>(&self, out: &'o mut [u8]) -> Option<&'o str>
        ensures cases { Returns (text_of (oid_arcs self.now)) out.old result }
        ensures enough { 4 * length (oid_octets self.now) ≤ length out.old → IsSome result }
    {
        self.as_oid_ref().encode_str(out)
    }

    /// The parent: all arcs except the last. `None` if there are only two.
    /// [`ObjectIdentifierRef::parent`] has an example.
    pub fn parent(&self) -> Option<Self>
        ensures { option_map oid_arcs result ≡ parent_of (oid_arcs self.now) }
    {
        // erase: another body
        let parent = self.as_oid_ref().parent()?;
        let ber = self.ber.truncated(parent.as_bytes().len());
        Some(ObjectIdentifier { ber })
    }

    /// The child with one more arc, which is its last.
    ///
    /// # Errors
    ///
    /// [`Error::Length`] if its octets do not fit.
    ///
    /// # Examples
    ///
    /// ```
    /// use const_oid::{Error, ObjectIdentifier};
    ///
    /// const CHILD: Result<ObjectIdentifier, Error> = ObjectIdentifier::new_unwrap("2.999").push_arc(3);
    /// assert_eq!(CHILD?.to_string(), "2.999.3");
    /// # Ok::<(), Error>(())
    /// ```
    // erase: const
    pub fn push_arc(self, arc: Arc) -> Result<Self>
        ensures fits { let count = size (child_of (oid_arcs self.entry) arc) in
            MatchResult result (λ _. count ≤ min MAX_SIZE 255)
            (λ fault. (fault ≡ Error.Length) × (min MAX_SIZE 255 < count)) }
        ensures child { IfOk result (λ oid. oid_arcs oid ≡ child_of (oid_arcs self.entry) arc) }
    {
        match self.ber.pushed(arc as u64) {
            Ok(ber) => Ok(ObjectIdentifier { ber }),
            Err(fault) => Err(fault),
        }
    }

    /// Whether the arcs are the same, where most differ in the last octet.
    // erase: const
    pub(crate) fn eq_last_first(&self, other: &Self) -> bool
        ensures { IsTrue result ↔ (oid_arcs self.now ≡ oid_arcs other.now) }
    {
        self.ber.eq_last_first(&other.ber)
    }

    /// Whether the arcs begin with all those of another identifier: whether the other one is this one or an ancestor of
    /// it. [`ObjectIdentifierRef::parent`] has an example.
    // erase: const
    #[inline(always)]
    pub fn starts_with<const SIZE: usize>(&self, other: ObjectIdentifier<SIZE>) -> bool
        ensures { IsTrue result ↔ BeginsWith (oid_arcs self.now) (oid_arcs other.entry) }
    {
        self.as_oid_ref().starts_with(&other.as_oid_ref())
    }

    /// The arcs after those of another identifier, or `None` if the arcs do not begin with those. They may be none.
    /// [`ObjectIdentifierRef::parent`] has an example.
    pub fn strip_prefix<const SIZE: usize>(
        &self,
        other: &ObjectIdentifier<SIZE>,
    ) -> Option<Arcs<'_>>
        ensures { MatchOption result
            (BeginsWith (oid_arcs self.now) (oid_arcs other.now) → ⊥)
            (λ rest. oid_arcs self.now ≡ oid_arcs other.now ++ rest) }
    {
        self.as_oid_ref().strip_prefix(&other.as_oid_ref())
    }

    /// Compares the arcs lexicographically, a prefix before what begins with it. SNMP orders names so (RFC 3416).
    /// [`ObjectIdentifierRef::parent`] has an example.
    // erase: const
    pub fn cmp_arcs<const SIZE: usize>(&self, other: &ObjectIdentifier<SIZE>) -> Ordering
        ensures { result ≡ slice_cmp nat_cmp (oid_arcs self.now) (oid_arcs other.now) }
    {
        self.as_oid_ref().cmp_arcs(&other.as_oid_ref())
    }
}

impl ObjectIdentifierRef<'_> {
    ghost use Rattle.const_oid.specs.Oid.{oid_octets, oid_arcs};
    ghost use Rattle.const_oid.specs.OidRef.{ref_octets, ref_arcs};

    /// Whether an owned identifier, of any capacity, has the same octets, and so the same arcs.
    // erase: const
    pub fn eq_oid<const N: usize>(&self, other: &ObjectIdentifier<N>) -> bool
        ensures octets { IsTrue result ↔ (ref_octets self.now ≡ oid_octets other.now) }
        ensures arcs { IsTrue result ↔ (ref_arcs self.now ≡ oid_arcs other.now) }
    {
        are_equal(self.as_bytes(), other.as_bytes())
    }
}

/// The arcs in decimal, joined by dots. Width, fill, sign and precision are ignored: to fill a column, print
/// `oid.to_string()`.
impl<const MAX_SIZE: usize> fmt::Display for ObjectIdentifier<MAX_SIZE> {
    ghost use Rattle.const_oid.specs.Oid.{oid_arcs};

    ghost output = { λ oid. Some (text_of (oid_arcs oid)) };

    ghost styled_output = { λ oid _. Some (text_of (oid_arcs oid)) };

    fn fmt<W: fmt::Write>(&self, f: &mut fmt::Formatter<W>) -> fmt::Result {
        fmt::Display::fmt(&self.as_oid_ref(), f)
    }
}

impl<const MAX_SIZE: usize> fmt::Debug for ObjectIdentifier<MAX_SIZE> {
    ghost use Rattle.const_oid.specs.Oid.{oid_arcs};

    ghost debug_output = { λ oid. Some (codes "ObjectIdentifier(" ++ (text_of (oid_arcs oid) ++ codes ")")) };

    fn fmt<W: fmt::Write>(&self, f: &mut fmt::Formatter<W>) -> fmt::Result
        ensures writes { DisplaysOnOk W.write_str_gives f.old result (Some (codes "ObjectIdentifier(" ++ (text_of (oid_arcs self.now) ++ codes ")"))) f.new }
        ensures styled { WritesStyledOnOk W.write_str_gives f.old result (codes "ObjectIdentifier(" ++ (text_of (oid_arcs self.now) ++ codes ")")) f.new }
    {
        f.write_str("ObjectIdentifier(")?;
        fmt::Display::fmt(&self.as_oid_ref(), f)?;
        f.write_str(")")
    }
}

impl<const MAX_SIZE: usize> PartialEq for ObjectIdentifier<MAX_SIZE> {
    ghost use Rattle.const_oid.specs.Oid.{oid_octets, oid_arcs};

    ghost eq = { λ a b. pointwise nat_eq (oid_octets a) (oid_octets b) };

    ghost laws = { on_per oid_octets (partial_equiv_from_equiv nat_list_eq_equiv) };

    // erase: another body
    fn eq(&self, other: &Self) -> bool
        ensures value { result ≡ pointwise nat_eq (oid_octets self.now) (oid_octets other.now) }
        ensures octets { IsTrue result ↔ (oid_octets self.now ≡ oid_octets other.now) }
        ensures arcs { IsTrue result ↔ (oid_arcs self.now ≡ oid_arcs other.now) }
    {
        self.ber.eq(&other.ber)
    }
}

/// By the number of octets, and then by the octets in lexicographic order (shortlex). This is not the order of arcs:
/// see [`cmp_arcs`](Self::cmp_arcs).
impl<const MAX_SIZE: usize> Ord for ObjectIdentifier<MAX_SIZE> {
    ghost use Rattle.const_oid.specs.Oid.{oid_octets};
    ghost use Rattle.const_oid.specs.Orders.{shortlex_cmp, shortlex_cmp_total, shortlex_cmp_ties};

    ghost cmp = { λ a b. shortlex_cmp (oid_octets a) (oid_octets b) };

    ghost total = { on_total oid_octets shortlex_cmp_total };

    ghost matches_partial_cmp = { λ a b. refl };

    ghost matches_eq = { λ a b. shortlex_cmp_ties (oid_octets a) (oid_octets b) };

    fn cmp(&self, other: &Self) -> Ordering
        ensures { result ≡ shortlex_cmp (oid_octets self.now) (oid_octets other.now) }
    {
        self.ber.cmp(&other.ber)
    }
}

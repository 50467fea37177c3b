// The bytes of names and values. Most are short and are stored inline.

ghost use Rattle.std.specs.Prelude.{◌≡◌, ◌≤◌, IfOk, length, take, bytes_eq};
ghost use Rattle.std.specs.Int.{w64, to_le_bytes};
ghost use Rattle.mlk_text.specs.Texts.{bytes_of, name_bytes_of};

use std::alloc::{AllocError, Global};
use std::marker::Model;

// How many bytes of a value are stored inline.
const MOST_SHORT: usize = 16;

// How many bytes of a name are stored inline: most names are shorter, and a routine's tree has a great many of them.
const MOST_SHORT_NAME: usize = 14;

// Whether `bytes` and `others` are equal.
fn are_same(bytes: &[u8], others: &[u8]) -> bool
    ensures { result ≡ bytes_eq bytes.now others.now }
{
    bytes == others
}

// The first eight bytes as one little-endian number.
#[inline(always)]
fn first_word(bytes: &[u8]) -> u64
    requires { 8 ≤ length bytes.now }
    ensures { to_le_bytes w64 result ≡ take 8 bytes.now }
{
    match bytes.split_first_chunk() {
        Some((word, _)) => u64::from_le_bytes(*word),
        None => 0,
    }
}

/// Up to `N` bytes, with `N` at least 8. The bytes after them are zero, so that a short text is compared as one number.
#[derive(Drop)]
pub(crate) struct Short<const N: usize> {
    bytes: [u8; N],
    length: u8,
}

impl<const N: usize> Model for Short<N> {
    ghost use Rattle.std.specs.Prelude.{List, ℕ, take, drop, replicate, ◌≡◌, ◌≤◌, ◌-◌};

    ghost Value = { List ℕ };

    ghost view = { λ s. take s.length s.bytes };

    ghost invariant = { λ s. (8 ≤ N) × (s.length ≤ N) × (drop s.length s.bytes ≡ replicate (N - s.length) 0) };
}

impl<const N: usize> Short<N> {
    #[inline(always)]
    fn new(bytes: &[u8]) -> Short<N>
        requires fits { length bytes.now ≤ N }
        requires least { 8 ≤ N }
        requires most { N ≤ 255 }
        ensures { result ≡ bytes.now }
    {
        let mut kept = [0; N];
        let (front, _) = kept.split_at_mut(bytes.len());
        front.copy_from_slice(bytes);
        Short {
            bytes: kept,
            length: bytes.len() as u8,
        }
    }

    fn as_bytes(&self) -> &[u8]
        ensures { result.now ≡ self.now }
    {
        let (front, _) = self.bytes.split_at(self.length as usize);
        front
    }

    // Whether the two are equal. Most are at most eight bytes long and are compared with the zeros after them.
    #[inline(always)]
    fn is_same(&self, other: &Short<N>) -> bool
        ensures { result ≡ bytes_eq self.now other.now }
    {
        if self.length != other.length {
            return false;
        }
        if self.length <= 8 {
            return first_word(&self.bytes) == first_word(&other.bytes);
        }
        are_same(self.as_bytes(), other.as_bytes())
    }

    #[inline(always)]
    fn copy(&self) -> Short<N>
        ensures { result ≡ self.now }
    {
        Short {
            bytes: self.bytes,
            length: self.length,
        }
    }
}

/// Up to 16 bytes of a value. The bytes after them are zero. The length has a word of its own, so that everything is moved in
/// whole words: a load of another width than the store before it waits until the store has reached memory.
#[derive(Debug, Drop)]
pub(crate) struct ShortValue {
    length: usize,
    bytes: [u8; MOST_SHORT],
}

impl Model for ShortValue {
    ghost use Rattle.std.specs.Prelude.{List, ℕ, take, drop, replicate, ◌≡◌, ◌≤◌, ◌-◌};

    ghost Value = { List ℕ };

    ghost view = { λ s. take s.length s.bytes };

    ghost invariant = { λ s. (s.length ≤ 16) × (drop s.length s.bytes ≡ replicate (16 - s.length) 0) };
}

impl ShortValue {
    #[inline(always)]
    fn new(bytes: &[u8]) -> ShortValue
        requires { length bytes.now ≤ 16 }
        ensures { result ≡ bytes.now }
    {
        let mut kept = [0; MOST_SHORT];
        let (front, _) = kept.split_at_mut(bytes.len());
        front.copy_from_slice(bytes);
        ShortValue {
            length: bytes.len(),
            bytes: kept,
        }
    }

    fn as_bytes(&self) -> &[u8]
        ensures { result.now ≡ self.now }
    {
        let (front, _) = self.bytes.split_at(self.length);
        front
    }

    // Whether the two are equal. Most are at most eight bytes long and are compared with the zeros after them.
    #[inline(always)]
    fn is_same(&self, other: &ShortValue) -> bool
        ensures { result ≡ bytes_eq self.now other.now }
    {
        if self.length != other.length {
            return false;
        }
        if self.length <= 8 {
            return first_word(&self.bytes) == first_word(&other.bytes);
        }
        are_same(self.as_bytes(), other.as_bytes())
    }

    #[inline(always)]
    fn copy(&self) -> ShortValue
        ensures { result ≡ self.now }
    {
        ShortValue {
            length: self.length,
            bytes: self.bytes,
        }
    }
}

/// The bytes of a value: any bytes.
#[derive(Debug, Drop)]
pub(crate) enum Text {
    Short(ShortValue),
    Long(Vec<u8>),
}

impl Text {
    /// The text with the bytes `bytes`.
    #[inline(always)]
    pub(crate) fn new(alloc: Global, bytes: &[u8]) -> Result<Text, AllocError>
        ensures { IfOk result (λ t. bytes_of t ≡ bytes.now) }
    {
        if bytes.len() <= MOST_SHORT {
            Ok(Text::Short(ShortValue::new(bytes)))
        } else {
            Ok(Text::Long(Vec::from_slice(alloc, bytes)?))
        }
    }

    pub(crate) fn as_bytes(&self) -> &[u8]
        ensures { result.now ≡ bytes_of self.now }
    {
        match self {
            Text::Short(short) => short.as_bytes(),
            Text::Long(bytes) => bytes.as_slice(),
        }
    }

    /// Whether the two texts are equal.
    pub(crate) fn is_same(&self, other: &Text) -> bool
        ensures { result ≡ bytes_eq (bytes_of self.now) (bytes_of other.now) }
    {
        match (self, other) {
            (Text::Short(short), Text::Short(another)) => short.is_same(another),
            _ => are_same(self.as_bytes(), other.as_bytes()),
        }
    }

    /// Copies the text, in the same allocator.
    #[inline(always)]
    pub(crate) fn copy(&self) -> Result<Text, AllocError>
        ensures { IfOk result (λ t. bytes_of t ≡ bytes_of self.now) }
    {
        match self {
            Text::Short(short) => Ok(Text::Short(short.copy())),
            Text::Long(bytes) => Ok(Text::Long(bytes.clone()?)),
        }
    }
}

/// The bytes of a name: any bytes, though few names have many.
#[derive(Drop)]
pub(crate) enum NameText {
    Short(Short<MOST_SHORT_NAME>),
    Long(Box<Vec<u8>>),
}

impl NameText {
    /// The text with the bytes `bytes`.
    #[inline(always)]
    pub(crate) fn new(alloc: Global, bytes: &[u8]) -> Result<NameText, AllocError>
        ensures { IfOk result (λ t. name_bytes_of t ≡ bytes.now) }
    {
        if bytes.len() <= MOST_SHORT_NAME {
            return Ok(NameText::Short(Short::new(bytes)));
        }
        let kept = Vec::from_slice(alloc, bytes)?;
        Ok(NameText::Long(Box::new(alloc, kept)?))
    }

    pub(crate) fn as_bytes(&self) -> &[u8]
        ensures { result.now ≡ name_bytes_of self.now }
    {
        match self {
            NameText::Short(short) => short.as_bytes(),
            NameText::Long(bytes) => bytes.as_slice(),
        }
    }

    /// Whether the two texts are equal.
    #[inline(always)]
    pub(crate) fn is_same(&self, other: &NameText) -> bool
        ensures { result ≡ bytes_eq (name_bytes_of self.now) (name_bytes_of other.now) }
    {
        match (self, other) {
            (NameText::Short(short), NameText::Short(another)) => short.is_same(another),
            _ => are_same(self.as_bytes(), other.as_bytes()),
        }
    }

    /// Copies the text, in the same allocator.
    #[inline(always)]
    pub(crate) fn copy(&self) -> Result<NameText, AllocError>
        ensures { IfOk result (λ t. name_bytes_of t ≡ name_bytes_of self.now) }
    {
        match self {
            NameText::Short(short) => Ok(NameText::Short(short.copy())),
            NameText::Long(bytes) => Ok(NameText::Long(bytes.clone()?)),
        }
    }
}

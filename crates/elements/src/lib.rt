// The tag data elements (ICC.1:2022, section 10), each written at a place of a lent slice with its padding. The callers have checked that there
// is room; each function answers the place after what it put.

#![tactic(auto)]

ghost use Rattle.std.specs.Prelude.{ℕ, List, ◌∷◌, [], ◌+◌, ◌*◌, ◌≤◌, length};
ghost use Rattle.words.specs.Words.{be16, be32, twos_complement32};
ghost use Rattle.buffer.specs.Ascii.{ascii};
ghost use Rattle.buffer.specs.Bytes.{zeros};
ghost use Rattle.buffer.specs.Puts.{Puts};
ghost use Rattle.profile.specs.Elements as Elements;
ghost use Rattle.profile.specs.Layout.{cicp_element};
ghost use Rattle.profile.specs.Plan.{max_letters};
ghost use Rattle.profile.specs.Shape.{mluc_size, curve_size, cicp_size, is_gamma, cicp_slot, has_cicp};
ghost use Rattle.profile.specs.Signatures as Sig;
ghost use Rattle.profile.specs.TagTypes as TagTypes;
ghost use Rattle.elements.specs.EncodingLaws.{Encoding, fixed, words, letters};

use element_values::{cicp_bytes, curve_parameters};
pub use element_values::{mluc_size, padding};
use profile::{Curve, MLUC_TEXT};

// The PCS white point, as fixed numbers.
pub const D50: [i32; 3] = [63190, 65536, 54061];

// The four bytes of a signature.
pub fn write_icc_tag(out: &mut [u8], at: usize, signature: [u8; 4]) -> usize
    requires { at + 4 ≤ length out.old }
    ensures { Puts out.old at 4 signature result out.new }
{
    buffer::put_bytes(out, at, &signature)
}

// A value that is put as so many bytes, the same number for each.
pub trait Put: Copy {
    ghost width: { ℕ };

    ghost bytes: { Self → List ℕ };

    // values one after another
    ghost all: { List Self → List ℕ };

    fn put(self, out: &mut [u8], at: usize) -> usize
        requires { at + width ≤ length out.old }
        ensures { Puts out.old at width (bytes self) result out.new };

    ghost one_by_one: { Encoding width bytes all };
}

// An s15Fixed16Number.
impl Put for i32 {
    ghost width = { 4 };

    ghost bytes = { λ z. be32 (twos_complement32 z) };

    ghost all = { TagTypes.s15_fixed_16s };

    ghost one_by_one = { fixed };

    fn put(self, out: &mut [u8], at: usize) -> usize {
        words::put_u32_be(out, at, numbers::i32_to_bits(self))
    }
}

impl Put for u16 {
    ghost width = { 2 };

    ghost bytes = { be16 };

    ghost all = { TagTypes.uint16s };

    ghost one_by_one = { words };

    fn put(self, out: &mut [u8], at: usize) -> usize {
        words::put_u16_be(out, at, self)
    }
}

// A letter of a text, in UTF-16BE.
impl Put for u8 {
    ghost width = { 2 };

    ghost bytes = { λ c. 0 ∷ c ∷ [] };

    ghost all = { TagTypes.utf16 };

    ghost one_by_one = { letters };

    fn put(self, out: &mut [u8], at: usize) -> usize {
        buffer::put_bytes(out, at, &[0, self])
    }
}

// Values one after another.
pub fn put_each<T: Put>(out: &mut [u8], at: usize, values: &[T]) -> usize
    requires { at + T.width * length values.now ≤ length out.old }
    ensures { Puts out.old at (T.width * length values.now) (T.all values.now) result out.new }
{
    let mut next = at;
    for value in values {
        next = value.put(out, next);
    }
    next
}

// The bytes before the text: one record, of 12 bytes, for a text of `size` bytes.
fn put_mluc_record(out: &mut [u8], at: usize, size: u32) -> usize
    requires { at + 28 ≤ length out.old }
    ensures { Puts out.old at 28 (TagTypes.join (Sig.mluc ∷ zeros 4 ∷ be32 1 ∷ be32 12 ∷ ascii "enUS" ∷ be32 size ∷ be32 28 ∷ [])) result out.new }
{
    let at = buffer::put_bytes(out, at, b"mluc\0\0\0\0\0\0\0\x01\0\0\0\x0cenUS");
    let at = words::put_u32_be(out, at, size);
    words::put_u32_be(out, at, MLUC_TEXT as u32)
}

pub fn create_icc_mluc_tag(out: &mut [u8], at: usize, text: &[u8]) -> usize
    requires { (length text.now ≤ max_letters) × (at + Elements.padded_size (mluc_size (length text.now)) ≤ length out.old) }
    ensures { Puts out.old at (Elements.padded_size (mluc_size (length text.now))) (Elements.padded (TagTypes.mluc text.now)) result out.new }
{
    let at = put_mluc_record(out, at, (2 * text.len()) as u32);
    let at = put_each(out, at, text);
    buffer::put_zeros(out, at, padding(mluc_size(text.len())))
}

// A type signature with its four reserved bytes, and numbers: no padding follows.
fn put_numbers(out: &mut [u8], at: usize, start: &[u8; 8], values: &[i32]) -> usize
    requires { at + (8 + 4 * length values.now) ≤ length out.old }
    ensures { Puts out.old at (8 + 4 * length values.now) (Elements.padded (TagTypes.join (start.now ∷ TagTypes.s15_fixed_16s values.now ∷ []))) result out.new }
{
    let at = buffer::put_bytes(out, at, start);
    put_each(out, at, values)
}

#[tactic(auto, unfolding(profile::specs::TagTypes::xyz, profile::specs::TagTypes::join))]
pub fn create_icc_xyz_tag(out: &mut [u8], at: usize, values: &[i32]) -> usize
    requires { at + (8 + 4 * length values.now) ≤ length out.old }
    ensures { Puts out.old at (8 + 4 * length values.now) (Elements.padded (TagTypes.xyz values.now)) result out.new }
{
    put_numbers(out, at, b"XYZ \0\0\0\0", values)
}

#[tactic(auto, unfolding(profile::specs::TagTypes::sf32, profile::specs::TagTypes::join))]
pub fn create_icc_chad_tag(out: &mut [u8], at: usize, values: &[i32]) -> usize
    requires { at + (8 + 4 * length values.now) ≤ length out.old }
    ensures { Puts out.old at (8 + 4 * length values.now) (Elements.padded (TagTypes.sf32 values.now)) result out.new }
{
    put_numbers(out, at, b"sf32\0\0\0\0", values)
}

pub fn create_icc_curv_para_tag(out: &mut [u8], at: usize, params: &[i32], curve_type: u16) -> usize
    requires { at + (12 + 4 * length params.now) ≤ length out.old }
    ensures { Puts out.old at (12 + 4 * length params.now) (TagTypes.para curve_type params.now) result out.new }
{
    let at = buffer::put_bytes(out, at, b"para\0\0\0\0");
    let at = words::put_u16_be(out, at, curve_type);
    let at = buffer::put_zeros(out, at, 2);
    put_each(out, at, params)
}

pub fn put_curve(out: &mut [u8], at: usize, curve: Curve) -> usize
    requires { at + curve_size (is_gamma curve) ≤ length out.old }
    ensures { Puts out.old at (curve_size (is_gamma curve)) (Elements.padded (TagTypes.curve curve)) result out.new }
{
    match curve {
        Curve::Named(name) => create_icc_curv_para_tag(out, at, &curve_parameters(name), 3),
        Curve::Gamma(g) => create_icc_curv_para_tag(out, at, &[g], 0),
    }
}

fn put_cicp(out: &mut [u8], at: usize, primaries: u8, curve: Curve) -> usize
    requires { at + cicp_size ≤ length out.old }
    ensures { Puts out.old at cicp_size (TagTypes.cicp primaries curve) result out.new }
{
    buffer::put_bytes(out, at, &cicp_bytes(primaries, curve))
}

pub fn create_icc_cicp_tag_data(out: &mut [u8], at: usize, cicp: Option<u8>, curve: Curve) -> usize
    requires { at + Elements.body_size (cicp_slot (has_cicp cicp)) ≤ length out.old }
    ensures { Puts out.old at (Elements.body_size (cicp_slot (has_cicp cicp))) (Elements.body (cicp_element curve cicp)) result out.new }
{
    match cicp {
        None => at,
        Some(primaries) => put_cicp(out, at, primaries, curve),
    }
}

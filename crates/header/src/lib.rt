// The profile header (ICC.1:2022, 7.2): first with the intent and the id left zero, as MD5 wants them, and then these two.

#![tactic(auto)]

ghost use Rattle.std.specs.Prelude.{◌≡◌, ◌∷◌, [], ◌+◌, ◌≤◌, length, take};
ghost use Rattle.words.specs.Words.{be16, be32};
ghost use Rattle.buffer.specs.Buffer.{put};
ghost use Rattle.buffer.specs.Bytes.{zeros};
ghost use Rattle.buffer.specs.Puts.{Puts};
ghost use Rattle.md5_digest.specs.Md5.{md5};
ghost use Rattle.profile.specs.Signatures as Sig;
ghost use Rattle.profile.specs.TagTypes.{join, s15_fixed_16s};
ghost use Rattle.profile.specs.Elements.{header_size};
ghost use Rattle.profile.specs.Layout as Layout;
ghost use Rattle.profile.specs.Layout.{intent_at, id_at, id_size};

use elements::{D50, put_each, write_icc_tag};
use profile::Kind;

// Where maker, model, intent and id stand.
pub const MAKER: usize = 48;

pub const MODEL: usize = 52;

pub const INTENT: usize = 64;

pub const ID: usize = 84;

// The class of a profile and its data color space.
fn signatures_of(kind: Kind) -> ([u8; 4], [u8; 4])
    ensures { result ≡ (Layout.class kind, Layout.space kind) }
{
    match kind {
        Kind::Gray => (*b"mntr", *b"GRAY"),
        Kind::Rgb => (*b"mntr", *b"RGB "),
        Kind::Xyb => (*b"scnr", *b"RGB "),
    }
}

// Preferred CMM, and version 4.4.
const CMM_AND_VERSION: [u8; 8] = *b"jxl \x04\x40\0\0";

// Preferred CMM, version, class, data color space, PCS.
fn put_class_and_space(out: &mut [u8], at: usize, kind: Kind) -> usize
    requires { at + 20 ≤ length out.old }
    ensures { Puts out.old at 20 (join (Sig.jxl ∷ (4 ∷ 64 ∷ 0 ∷ 0 ∷ []) ∷ Layout.class kind ∷ Layout.space kind ∷ Sig.XYZ ∷ [])) result out.new }
{
    let (class, space) = signatures_of(kind);
    let at = buffer::put_bytes(out, at, &CMM_AND_VERSION);
    let at = write_icc_tag(out, at, class);
    let at = write_icc_tag(out, at, space);
    write_icc_tag(out, at, *b"XYZ ")
}

// 2019-12-01 00:00:00 in big-endian numbers of two bytes, file signature, platform.
const DATE_AND_PLATFORM: [u8; 20] = *b"\x07\xe3\0\x0c\0\x01\0\0\0\0\0\0acspAPPL";

#[tactic(auto, unfolding(profile::specs::TagTypes::join, words::specs::Words::be16))]
fn put_date_and_platform(out: &mut [u8], at: usize) -> usize
    requires { at + 20 ≤ length out.old }
    ensures { Puts out.old at 20 (join (be16 2019 ∷ be16 12 ∷ be16 1 ∷ zeros 6 ∷ Sig.acsp ∷ Sig.APPL ∷ [])) result out.new }
{
    buffer::put_bytes(out, at, &DATE_AND_PLATFORM)
}

// Flags, all zero; device manufacturer and model; attributes, all zero.
fn put_device(out: &mut [u8], at: usize, maker: u32, model: u32) -> usize
    requires { at + 20 ≤ length out.old }
    ensures { Puts out.old at 20 (join (zeros 4 ∷ be32 maker ∷ be32 model ∷ zeros 8 ∷ [])) result out.new }
{
    let at = buffer::put_zeros(out, at, 4);
    let at = words::put_u32_be(out, at, maker);
    let at = words::put_u32_be(out, at, model);
    buffer::put_zeros(out, at, 8)
}

// Intent; PCS illuminant; creator; id and reserved bytes, all zero.
fn put_last_fields(out: &mut [u8], at: usize) -> usize
    requires { at + 64 ≤ length out.old }
    ensures { Puts out.old at 64 (join (be32 0 ∷ s15_fixed_16s Layout.D50 ∷ Sig.jxl ∷ zeros 16 ∷ zeros 28 ∷ [])) result out.new }
{
    let at = words::put_u32_be(out, at, 0);
    let at = put_each(out, at, &D50);
    let at = write_icc_tag(out, at, *b"jxl ");
    buffer::put_zeros(out, at, 44)
}

pub fn create_icc_header(out: &mut [u8], size: u32, kind: Kind, maker: u32, model: u32)
    requires { header_size ≤ length out.old }
    ensures { out.new ≡ put out.old 0 (Layout.blank_header kind size maker model) }
{
    let at = words::put_u32_be(out, 0, size);
    let at = put_class_and_space(out, at, kind);
    let at = put_date_and_platform(out, at);
    let at = put_device(out, at, maker, model);
    put_last_fields(out, at);
}

// The intent and the id go in last: the id is MD5 of the profile while both are zero.
pub fn put_intent_and_id(out: &mut [u8], size: usize, intent: u32) -> usize
    requires { (id_at + id_size ≤ size) × (size ≤ length out.old) }
    ensures { Puts (put out.old intent_at (be32 intent)) id_at id_size (md5 (take size out.old)) result out.new }
{
    let id = md5_digest::compute_md5(&out[..size]);
    words::put_u32_be(out, INTENT, intent);
    buffer::put_bytes(out, ID, &id)
}

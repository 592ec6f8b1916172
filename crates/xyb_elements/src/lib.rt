// The `A2B0` and `B2A0` elements of the XYB profile (ICC.1:2022, 10.12 and 10.13).

#![tactic(auto)]

ghost use Rattle.std.specs.Prelude.{◌+◌, ◌≤◌, length};
ghost use Rattle.buffer.specs.Puts.{Puts};
ghost use Rattle.profile.specs.Elements.{padded};
ghost use Rattle.profile.specs.Shape.{a2b0_size, b2a0_size};
ghost use Rattle.profile.specs.Xyb as Xyb;

use elements::{create_icc_curv_para_tag, put_each};

// The first 32 bytes of A2B0: signature, three channels in and out, and where its parts start: the B curves at 0x20, the matrix at 0xf4,
// the M curves at 0x94, the CLUT at 0x50, and the A curves, which are the B curves.
const A2B0_START: [u8; 32] =
    *b"mAB \0\0\0\0\x03\x03\0\0\0\0\0\x20\0\0\0\xf4\0\0\0\x94\0\0\0\x50\0\0\0\x20";

// Those of B2A0, which has B curves and nothing else.
const B2A0_START: [u8; 32] = *b"mBA \0\0\0\0\x03\x03\0\0\0\0\0\x20\0\0\0\0\0\0\0\0\0\0\0\0\0\0\0\0";

// Two points in each of three dimensions out of sixteen, and entries of two bytes.
const CLUT_START: [u8; 20] = *b"\x02\x02\x02\0\0\0\0\0\0\0\0\0\0\0\0\0\x02\0\0\0";

fn put_identity_curves(out: &mut [u8], at: usize) -> usize
    requires { at + 48 ≤ length out.old }
    ensures { Puts out.old at 48 Xyb.identity_curves result out.new }
{
    let at = create_icc_curv_para_tag(out, at, &[65536], 0);
    let at = create_icc_curv_para_tag(out, at, &[65536], 0);
    create_icc_curv_para_tag(out, at, &[65536], 0)
}

fn put_clut(out: &mut [u8], at: usize) -> usize
    requires { at + 68 ≤ length out.old }
    ensures { Puts out.old at 68 Xyb.clut result out.new }
{
    let at = buffer::put_bytes(out, at, &CLUT_START);
    put_each(out, at, &xyb_constants::clut())
}

fn put_m_curves(out: &mut [u8], at: usize) -> usize
    requires { at + 96 ≤ length out.old }
    ensures { Puts out.old at 96 Xyb.m_curves result out.new }
{
    let values = xyb_constants::m_curves();
    let at = create_icc_curv_para_tag(out, at, &values[0..5], 3);
    let at = create_icc_curv_para_tag(out, at, &values[5..10], 3);
    create_icc_curv_para_tag(out, at, &values[10..15], 3)
}

pub fn create_icc_lut_atob_tag_for_xyb(out: &mut [u8], at: usize) -> usize
    requires { at + a2b0_size ≤ length out.old }
    ensures { Puts out.old at a2b0_size (padded Xyb.a2b0) result out.new }
{
    let at = buffer::put_bytes(out, at, &A2B0_START);
    let at = put_identity_curves(out, at);
    let at = put_clut(out, at);
    let at = put_m_curves(out, at);
    put_each(out, at, &xyb_constants::matrix())
}

pub fn create_icc_noop_btoa_tag(out: &mut [u8], at: usize) -> usize
    requires { at + b2a0_size ≤ length out.old }
    ensures { Puts out.old at b2a0_size (padded Xyb.b2a0) result out.new }
{
    let at = buffer::put_bytes(out, at, &B2A0_START);
    put_identity_curves(out, at)
}

// Document 01's test weights that are marked P: a statement and its proof, and the functions of lane that the weights name, at their shape.
#![tactic(auto)]

ghost use Rattle.weights.specs.Weights.{Promises, i8x16_add as I8x16·add, i8x16_add_sat_u as I8x16·add_sat_u, i8x16_add_sat_s as I8x16·add_sat_s, i8x16_narrow_i16x8_u as I8x16·narrow_u, i8x16_narrow_i16x8_s as I8x16·narrow_s, i16x8_q15mulr_sat_s as I16x8·q15mulr_sat_s, i32x4_dot_i16x8_s as I32x4·dot_s};

use lane::{I8x16, Integer, Packed, Saturating, V128};

pub fn i8x16_add(a: V128, b: V128) -> V128
    ensures { Promises I8x16·add a b result }
{
    I8x16::add(a, b)
}

pub fn i8x16_add_sat_u(a: V128, b: V128) -> V128
    ensures { Promises I8x16·add_sat_u a b result }
{
    I8x16::add_sat_u(a, b)
}

pub fn i8x16_add_sat_s(a: V128, b: V128) -> V128
    ensures { Promises I8x16·add_sat_s a b result }
{
    I8x16::add_sat_s(a, b)
}

pub fn i8x16_narrow_i16x8_u(a: V128, b: V128) -> V128
    ensures { Promises I8x16·narrow_u a b result }
{
    I8x16::narrow_u(a, b)
}

pub fn i8x16_narrow_i16x8_s(a: V128, b: V128) -> V128
    ensures { Promises I8x16·narrow_s a b result }
{
    I8x16::narrow_s(a, b)
}

pub fn i16x8_q15mulr_sat_s(a: V128, b: V128) -> V128
    ensures { Promises I16x8·q15mulr_sat_s a b result }
{
    lane::q15mulr_sat_s(a, b)
}

pub fn i32x4_dot_i16x8_s(a: V128, b: V128) -> V128
    ensures { Promises I32x4·dot_s a b result }
{
    lane::dot_i16x8_s(a, b)
}

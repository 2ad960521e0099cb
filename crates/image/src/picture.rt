// An image: its parts one after the other.
ghost use Rattle.std.specs.Prelude.{◌≡◌, List, map, ◌+◌, ◌*◌, ◌-◌, ◌≤◌, length};
ghost use Rattle.std.proofs.lemmas.List.Edits.{sets};
ghost use Rattle.limits.specs.Limits.{slot, stack_limit};
ghost use Rattle.operation.specs.Vector.{number};
ghost use Rattle.opcode.specs.Kind.{Kind, kind_byte};
ghost use Rattle.machine.specs.Value.{Value};
ghost use Rattle.machine.specs.Memory.{part};
ghost use Rattle.image.specs.Slots.{Tells};
ghost use Rattle.image.specs.Image.{front_bytes, front_of, filled, painted, place_in, Shows};
ghost use Rattle.image.specs.Inner.Parts.{Fronts, Rooms};

use crate::{BYTES, FRONT, STACK_AT, VERSION, slots};

// ---- reading

// The place that an image tells; 0, where no instruction stands, of what is too short for one.
pub fn place_in(image: &[u8]) -> usize
    ensures { result ≡ place_in image.now }
{
    if image.len() < BYTES {
        return 0;
    }
    u32::from_le_bytes([image[5], image[6], image[7], image[8]]) as usize
}

// Whether it is the image of locals and of a stack of these kinds, a byte each.
pub fn shows(image: &[u8], locals: &[u8], stack: &[u8]) -> bool
    ensures { (ls vs : List Kind) → locals.now ≡ map kind_byte ls → stack.now ≡ map kind_byte vs → Tells ((us ws : List Value) × Shows ls vs image.now (place_in image.now) us ws) result }
{
    if image.len() < BYTES {
        return false;
    }
    if limits::PARAMETERS + limits::LOCALS < locals.len() {
        return false;
    }
    let depth = stack.len();
    if limits::STACK < depth {
        return false;
    }
    if !fronts(image, depth) {
        return false;
    }
    if !rooms(image, FRONT, limits::LOCAL_BYTES, locals) {
        return false;
    }
    rooms(image, STACK_AT, limits::STACK_BYTES, stack)
}

// Whether the mark, the version and the depth are right.
fn fronts(image: &[u8], depth: usize) -> bool
    requires { (front_bytes ≤ length image.now) × (depth ≤ stack_limit) }
    ensures { Tells (Fronts image.now depth) result }
{
    if !image.starts_with(b"WGS") {
        return false;
    }
    if word(image, 3) != VERSION {
        return false;
    }
    let deep = word(image, 9);
    deep == depth
}

// Whether the room from `at` on begins with values of these kinds, and the rest of it is zero.
fn rooms(image: &[u8], at: usize, room: usize, kinds: &[u8]) -> bool
    requires { (at + room ≤ length image.now) × (slot * length kinds.now ≤ room) }
    ensures { (ks : List Kind) → kinds.now ≡ map kind_byte ks → Tells ((vs : List Value) × Rooms ks room (part room at image.now) vs) result }
{
    let end = at + limits::SLOT * kinds.len();
    let past = at + room;
    if !slots::formed(kinds, &image[at..end]) {
        return false;
    }
    slots::all_zero(&image[end..past])
}

// Two bytes, little-endian.
fn word(image: &[u8], at: usize) -> usize
    requires { at + 2 ≤ length image.now }
    ensures { result ≡ number (part 2 at image.now) }
{
    usize::from(u16::from_le_bytes([image[at], image[at + 1]]))
}

// ---- writing

// The image at a place, with so many values on the stack, from the slots of the locals and of the stack that hold values.
pub fn write(image: &mut [u8], place: usize, depth: usize, locals: &[u8], stack: &[u8])
    ensures { image.new ≡ painted place depth locals.now stack.now image.old }
{
    if image.len() < BYTES {
        return;
    }
    if limits::LOCAL_BYTES < locals.len() {
        return;
    }
    if limits::STACK_BYTES < stack.len() {
        return;
    }
    let front = front(place, depth);
    buffer::copy(&front, image);
    fill(image, FRONT, limits::LOCAL_BYTES, locals);
    fill(image, STACK_AT, limits::STACK_BYTES, stack);
}

// Mark, version, place and depth.
fn front(place: usize, depth: usize) -> [u8; FRONT]
    ensures { result ≡ front_of place depth }
{
    let version = VERSION.to_le_bytes();
    let place = place.to_le_bytes();
    let depth = depth.to_le_bytes();
    [
        b'W', b'G', b'S', version[0], version[1], place[0], place[1], place[2], place[3], depth[0],
        depth[1],
    ]
}

// These bytes from `at` on, and zeros up to the end of the room.
fn fill(image: &mut [u8], at: usize, room: usize, slots: &[u8])
    requires { (at + room ≤ length image.old) × (length slots.now ≤ room) }
    ensures { image.new ≡ sets image.old at (filled room slots.now) }
{
    let past = at + room;
    let next = at + buffer::copy(slots, &mut image[at..]);
    image[next..past].fill(0);
}

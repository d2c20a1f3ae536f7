//! The lines of a generated trace.
ghost use Rattle.std.specs.Prelude.{◌≡◌, ◌+◌, ◌<◌, ◌≤◌, ◌++◌, [], length, codes, decimal};
ghost use Rattle.generator.specs.Text.{alloc_line, assertion_line, gap, held_line, holds_line, last_lines, lines_by, owned_line, store_line, turn_line};
ghost use Rattle.generator.specs.declared.piece.TheConstants.{NUMBER_ROOM, PIECE_ROOM};
ghost use Rattle.generator.specs.declared.lines.TheConstants.{LINE_ROOM};

use crate::piece::Piece;

/// A line has at most so many bytes.
const LINE_ROOM: usize = 100;

const COLLECT: &[u8] = b"{\"op\":\"collect\"}\n";

/// An object of a trace: its id, and what was drawn for it.
#[derive(Clone, Copy, Debug)]
pub(crate) struct Object {
    pub(crate) id: u32,
    pub(crate) draw: u32,
}

/// Puts the lines of an object into an empty piece. The trace has `size` objects.
#[tactic(auto, unfolding(crate::specs::Text::lines_by))]
pub(crate) fn put_object(text: &mut Piece, size: u32, object: Object)
    requires empty { text.old ≡ [] }
    requires id { 1 ≤ object.id }
    ensures lines { text.new ≡ lines_by size object.id object.draw }
    ensures some { 0 < length text.new }
{
    put_alloc(text, object.id, object.draw % 4);
    put_held(text, object);
    put_holds(text, object);
    put_assertion(text, size, object.id);
}

/// Puts the last lines of a trace into an empty piece.
#[tactic(auto, unfolding(crate::specs::Text::collect_line, crate::specs::Text::no_root_line, crate::specs::Text::last_lines))]
pub(crate) fn put_last(text: &mut Piece)
    requires empty { text.old ≡ [] }
    ensures lines { text.new ≡ last_lines }
    ensures some { 0 < length text.new }
{
    text.put(COLLECT);
    text.put(b"{\"op\":\"root\",\"name\":\"main\",\"to\":null}\n");
    text.put(COLLECT);
}

#[tactic(auto, unfolding(crate::specs::Text::alloc_line))]
fn put_alloc(text: &mut Piece, id: u32, kind: u32)
    requires fits { length text.old + LINE_ROOM ≤ PIECE_ROOM }
    ensures line { text.new ≡ text.old ++ alloc_line id kind }
    ensures some { length text.old < length text.new }
    ensures short { length text.new ≤ length text.old + LINE_ROOM }
{
    text.put(b"{\"op\":\"alloc\",\"id\":");
    text.put_number(id);
    text.put(b",\"type\":\"T");
    text.put_number(kind);
    text.put(b"\",\"slots\":3}\n");
}

// What holds the object: the root the first, and another object the most of the others.
#[tactic(auto, unfolding(crate::specs::Text::held_line, crate::specs::Text::root_line))]
fn put_held(text: &mut Piece, object: Object)
    requires fits { length text.old + LINE_ROOM ≤ PIECE_ROOM }
    ensures line { text.new ≡ text.old ++ held_line object.id object.draw }
    ensures short { length text.new ≤ length text.old + LINE_ROOM }
{
    if object.id == 1 {
        text.put(b"{\"op\":\"root\",\"name\":\"main\",\"to\":1}\n");
    } else if object.draw % 16 != 0 {
        put_store(text, object.id / 2, object.id % 2, object.id);
    }
}

// What the object holds in its last slot.
#[tactic(auto, unfolding(crate::specs::Text::holds_line))]
fn put_holds(text: &mut Piece, object: Object)
    requires fits { length text.old + LINE_ROOM ≤ PIECE_ROOM }
    requires id { 1 ≤ object.id }
    ensures line { text.new ≡ text.old ++ holds_line object.id object.draw }
    ensures short { length text.new ≤ length text.old + LINE_ROOM }
{
    put_store(text, object.id, 2, 1 + object.draw % object.id);
}

// An assertion, where it is this object's turn to have one.
#[tactic(auto, unfolding(crate::specs::Text::assertion_line))]
fn put_assertion(text: &mut Piece, size: u32, id: u32)
    requires fits { length text.old + LINE_ROOM ≤ PIECE_ROOM }
    ensures line { text.new ≡ text.old ++ assertion_line size id }
    ensures short { length text.new ≤ length text.old + LINE_ROOM }
{
    let gap = (size / 8).max(1);
    if id % gap == 0 {
        put_turn(text, id / gap % 4, id);
    }
}

#[tactic(auto, unfolding(crate::specs::Text::turn_line, crate::specs::Text::unshared_line, crate::specs::Text::limit_line, crate::specs::Text::dead_line))]
fn put_turn(text: &mut Piece, turn: u32, id: u32)
    requires fits { length text.old + LINE_ROOM ≤ PIECE_ROOM }
    ensures line { text.new ≡ text.old ++ turn_line turn id }
    ensures short { length text.new ≤ length text.old + LINE_ROOM }
{
    match turn {
        1 => put_last_field(text, b"{\"op\":\"assert-unshared\",\"id\":", id),
        2 => put_owned(text, id / 2, id),
        3 => put_last_field(
            text,
            b"{\"op\":\"assert-instances\",\"type\":\"T0\",\"limit\":",
            id / 4,
        ),
        _ => put_last_field(text, b"{\"op\":\"assert-dead\",\"id\":", id),
    }
}

#[tactic(auto, unfolding(crate::specs::Text::owned_line))]
fn put_owned(text: &mut Piece, owner: u32, ownee: u32)
    requires fits { length text.old + LINE_ROOM ≤ PIECE_ROOM }
    ensures line { text.new ≡ text.old ++ owned_line owner ownee }
    ensures short { length text.new ≤ length text.old + LINE_ROOM }
{
    text.put(b"{\"op\":\"assert-ownedby\",\"owner\":");
    text.put_number(owner);
    put_last_field(text, b",\"ownee\":", ownee);
}

#[tactic(auto, unfolding(crate::specs::Text::store_line))]
fn put_store(text: &mut Piece, at: u32, slot: u32, to: u32)
    requires fits { length text.old + LINE_ROOM ≤ PIECE_ROOM }
    ensures line { text.new ≡ text.old ++ store_line at slot to }
    ensures short { length text.new ≤ length text.old + LINE_ROOM }
{
    text.put(b"{\"op\":\"store\",\"at\":");
    text.put_number(at);
    text.put(b",\"slot\":");
    text.put_number(slot);
    put_last_field(text, b",\"to\":", to);
}

// The last field of a line, a number, with the end of the line.
fn put_last_field(text: &mut Piece, name: &[u8], number: u32)
    requires fits { length text.old + (length name.now + (NUMBER_ROOM + 2)) ≤ PIECE_ROOM }
    ensures field { text.new ≡ text.old ++ (name.now ++ (decimal number ++ codes "}\n")) }
    ensures short { length text.new ≤ length text.old + (length name.now + (NUMBER_ROOM + 2)) }
{
    text.put(name);
    text.put_number(number);
    text.put(b"}\n");
}

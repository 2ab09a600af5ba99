// The reader: the node loop and the public entries.
#![tactic(auto)]

ghost use Rattle.std.specs.Prelude.{◌≡◌, true, false, ◌+◌, ◌*◌, ◌≤◌, ◌<◌, ◌^◌, length, set};
ghost use Rattle.document.specs.Kinds as kinds;
ghost use Rattle.document.specs.Outcome.{lent_to, name_at, Keeps, Ready, Sound, TagFits, Child, moved};
ghost use Rattle.document.specs.Whole.{room_of, Says};
ghost use Rattle.files.specs.Files.{Reads};
ghost use Rattle.reader.specs.Entry.{Ended, Refuses, HasRoom, Accepts};
ghost use Rattle.reader.specs.Nodes.{Walking, Turns, Opens, Looks, NextIn, Shuts, ChildIn, Started, Begun, Walks, Levels, RootOpen, ReadsRoot, ReadsWhole};

use document::{Counts, Fill, Next, Reader, Refusal, StartTag, Token, Verdict, kinds};
use files::Reading;
use scan::ClassTable;
use std::ops::ControlFlow;
use tags::step;

// How many nodes are open, and the counts so far.
#[derive(Clone, Copy)]
struct Walk {
    depth: usize,
    fill: Fill,
}

// An open node: its row, and in `name` the place of its name.
#[derive(Clone, Copy)]
struct Level {
    row: u32,
    name: u32,
}

// A child of a node with row i that is no node itself.
#[tactic(auto, using(crate::proofs::NodeChildren::node_children))]
fn node_child(r: &mut Reader, c: &StartTag, i: usize, f: Fill) -> Result<Fill, Refusal>
    requires ready { Ready r.old.doc.now c.now f }
    requires owner { i < f.rows }
    requires no_node { (c.now.kind ≡ kinds.node → ⊥) }
    ensures keeps { Keeps r.old r.new }
    ensures is { Child r.old.doc.now kinds.in_node true c.now i f
        (lent_to r.old)
        (lent_to r.new) result }
{
    match c.kind {
        kinds::INTERFACE => interfaces::interface(r, c, i + 1, f),
        kind => {
            if interfaces::is_definition(kind) {
                return telepathy::definition(r, c, i + 1, f);
            }
            skip::docstring_or_skip(r.doc, r.classes, &mut *r.rows, &mut *r.warnings, c, i, f)
        }
    }
}

// Keeps the row of an open node, and the place of its name.
fn keep_level(opened: &mut [Level], depth: usize, row: usize, at: usize)
    requires inside { depth < length opened.old }
    requires row_small { row < 2 ^ 32 }
    requires at_small { at < 2 ^ 32 }
    ensures { opened.new ≡ set opened.old depth (record { row = row; name = at }) }
{
    opened[depth] = Level {
        row: row as u32,
        name: at as u32,
    };
}

// A node in a node: its row, and where it is open one more level, with the place of its name.
#[tactic(auto, using(crate::proofs::Opened::node_opens))]
fn open_node(
    doc: &[u8],
    rows: &mut [u32],
    text: &mut [u8],
    opened: &mut [Level],
    c: &StartTag,
    i: usize,
    s: Walk,
) -> Result<ControlFlow<Fill, Walk>, Refusal>
    requires started { Started doc.now opened.old c.now s }
    requires node { c.now.kind ≡ kinds.node }
    requires owner { i < s.fill.rows }
    ensures { Opens doc.now c.now i s opened.old opened.new rows.old
        rows.new text.old text.new result }
{
    let f = s.fill;
    let depth = s.depth;
    let closes = c.closes;
    let h = f.moved(c.end);
    let g = elements::untyped_row(doc, rows, text, c, kinds::NODE, i + 1, h)?;
    if closes {
        return Ok(ControlFlow::Continue(Walk { depth, fill: g }));
    }
    if depth == 1024 {
        return Err(document::bare(7, c.end));
    }
    keep_level(opened, depth, f.rows, c.at);
    Ok(ControlFlow::Continue(Walk {
        depth: depth + 1,
        fill: g,
    }))
}

// What comes next in the innermost open node. `at`, `len`: the root's name. `inner`: where the name of the innermost node stands, if that is
// not the root.
#[tactic(auto, using(crate::proofs::Turning::nexts))]
fn next_in(
    doc: &[u8],
    classes: &ClassTable,
    at: usize,
    len: usize,
    inner: usize,
    s: Walk,
) -> Result<Next, Refusal>
    requires looks { Looks doc.now «at» len inner s }
    ensures { NextIn doc.now (name_at doc.now «at» len) inner s result }
{
    let from = s.fill.at;
    if s.depth == 1 {
        return step(doc, classes, from, at, len);
    }
    step(doc, classes, from, inner, 4)
}

// The closing tag of the innermost open node: the root's end, or one level less.
#[tactic(auto, using(crate::proofs::Turning::shutting))]
fn close_node(s: Walk, end: usize) -> ControlFlow<Fill, Walk>
    requires { 0 < s.depth }
    ensures { Shuts s end result }
{
    let f = s.fill;
    let fill = f.moved(end);
    if s.depth == 1 {
        return ControlFlow::Break(fill);
    }
    ControlFlow::Continue(Walk {
        depth: s.depth - 1,
        fill,
    })
}

// A child of the innermost open node that is no node itself.
#[tactic(auto, using(crate::proofs::Turning::child_ins))]
fn read_child(
    r: &mut Reader,
    c: &StartTag,
    i: usize,
    s: Walk,
) -> Result<ControlFlow<Fill, Walk>, Refusal>
    requires ready { Ready r.old.doc.now c.now (moved s.fill c.now.end) }
    requires owner { i < s.fill.rows }
    requires no_node { (c.now.kind ≡ kinds.node → ⊥) }
    ensures keeps { Keeps r.old r.new }
    ensures is { ChildIn r.old.doc.now c.now i s
        (lent_to r.old)
        (lent_to r.new) result }
{
    let f = s.fill;
    let fill = f.moved(c.end);
    let g = node_child(r, c, i, fill)?;
    Ok(ControlFlow::Continue(Walk {
        depth: s.depth,
        fill: g,
    }))
}

// An element in the innermost open node.
#[tactic(auto, using(crate::proofs::Turning::starteds))]
fn start_in(
    r: &mut Reader,
    opened: &mut [Level],
    c: &StartTag,
    s: Walk,
) -> Result<ControlFlow<Fill, Walk>, Refusal>
    requires started { Started r.old.doc.now opened.old c.now s }
    ensures keeps { Keeps r.old r.new }
    ensures is { Begun r.old.doc.now c.now s opened.old opened.new
        (lent_to r.old)
        (lent_to r.new) result }
{
    let last = s.depth - 1;
    let i = opened[last].row as usize;
    if c.kind == kinds::NODE {
        return open_node(r.doc, &mut *r.rows, &mut *r.text, opened, c, i, s);
    }
    read_child(r, c, i, s)
}

// One token more in the innermost open node: the walk goes on, or it ends with the root.
#[tactic(auto, using(crate::proofs::Turning::turns))]
fn turn_at(
    r: &mut Reader,
    opened: &mut [Level],
    at: usize,
    len: usize,
    s: Walk,
) -> Result<ControlFlow<Fill, Walk>, Refusal>
    requires walking { Walking r.old.doc.now opened.old s }
    requires named { at + len ≤ length r.old.doc.now }
    ensures keeps { Keeps r.old r.new }
    ensures is { Turns r.old.doc.now (name_at r.old.doc.now «at» len) opened.old
        opened.new s (lent_to r.old)
        (lent_to r.new) result }
{
    let last = s.depth - 1;
    let inner = opened[last].name as usize;
    match next_in(r.doc, r.classes, at, len, inner, s)? {
        Next::Close(closing) => Ok(close_node(s, closing.end)),
        Next::Start(c) => start_in(r, opened, &c, s),
    }
}

// The open nodes, up to the root's end.
#[tactic(auto, using(crate::proofs::Rooted::walking))]
fn nodes(
    r: &mut Reader,
    opened: &mut [Level],
    at: usize,
    len: usize,
    s: Walk,
) -> Result<Fill, Refusal>
    requires walking { Walking r.old.doc.now opened.old s }
    requires named { at + len ≤ length r.old.doc.now }
    ensures keeps { Keeps r.old r.new }
    ensures is { Walks r.old.doc.now (name_at r.old.doc.now «at» len) opened.old s
        (lent_to r.old)
        (lent_to r.new) result }
{
    let mut w = s;
    // The next turn begins where this one ends.
    loop {
        match turn_at(r, opened, at, len, w)? {
            ControlFlow::Break(f) => return Ok(f),
            ControlFlow::Continue(next) => w = next,
        }
    }
}

// Room for the open nodes.
fn levels() -> [Level; 1024]
    ensures { Levels result }
{
    [Level { row: 0, name: 0 }; 1024]
}

// The children of the root, whose row is put.
#[tactic(auto, using(crate::proofs::Rooted::leveled))]
fn open_root(r: &mut Reader, c: &StartTag, g: Fill) -> Result<Fill, Refusal>
    requires opened { RootOpen r.old.doc.now c.now g r.old.rows.now r.old.text.now }
    ensures keeps { Keeps r.old r.new }
    ensures is { ReadsRoot r.old.doc.now c.now (lent_to r.new) result }
{
    let mut opened = levels();
    let s = Walk { depth: 1, fill: g };
    nodes(r, &mut opened, c.at, c.len, s)
}

// The root element, which may have any name.
#[tactic(auto, using(crate::proofs::Rooted::rooted))]
fn root_node(r: &mut Reader, c: &StartTag) -> Result<Fill, Refusal>
    requires sound { Sound r.old.doc.now }
    requires fits { TagFits r.old.doc.now c.now }
    requires after_start { 0 < c.now.at }
    ensures keeps { Keeps r.old r.new }
    ensures is { ReadsRoot r.old.doc.now c.now (lent_to r.new) result }
{
    let fill = Fill {
        at: c.end,
        rows: 0,
        warnings: 0,
        text: 0,
    };
    let g = elements::untyped_row(r.doc, &mut *r.rows, &mut *r.text, c, kinds::NODE, 0, fill)?;
    if c.closes {
        return Ok(g);
    }
    open_root(r, c, g)
}

// The document's root element, past what is ignorable.
#[tactic(auto, using(crate::proofs::Rooted::firsts))]
fn document_node(r: &mut Reader) -> Result<Fill, Refusal>
    requires sound { Sound r.old.doc.now }
    ensures keeps { Keeps r.old r.new }
    ensures is { ReadsWhole r.old.doc.now (lent_to r.new) result }
{
    match tags::token(r.doc, r.classes, 0)? {
        Token::End(place) => Err(document::bare(3, place)),
        Token::Close(c) => Err(document::bare(4, c.lt + 1)),
        Token::Start(c) => root_node(r, &c),
    }
}

// Leaves zeros in every buffer.
#[tactic(auto, using(crate::proofs::Entries::clearing))]
pub fn refuse(rows: &mut [u32], warnings: &mut [u32], text: &mut [u8], refusal: Refusal) -> Verdict
    ensures { Refuses refusal rows.old rows.new warnings.old
        warnings.new text.old text.new result }
{
    tables::clear_words(rows, 0);
    tables::clear_words(warnings, 0);
    tables::clear_bytes(text, 0);
    Err(refusal)
}

// Leaves zeros past the used part of every buffer.
fn accept(rows: &mut [u32], warnings: &mut [u32], text: &mut [u8], f: Fill) -> Verdict
    requires rows_inside { f.rows * 16 ≤ length rows.old }
    requires warnings_inside { f.warnings * 4 ≤ length warnings.old }
    ensures { Accepts f rows.old rows.new warnings.old warnings.new
        text.old text.new result }
{
    tables::clear_words(rows, f.rows * 16);
    tables::clear_words(warnings, f.warnings * 4);
    tables::clear_bytes(text, f.text);
    Ok(Counts {
        rows: f.rows,
        text: f.text,
        warnings: f.warnings,
    })
}

// Whether whole rows, whole warnings and the text have room.
#[tactic(auto, using(crate::proofs::Entries::rooms))]
fn has_room(rows: usize, warnings: usize, text: usize, f: Fill) -> bool
    ensures { HasRoom rows warnings text f result }
{
    if rows / 16 < f.rows {
        return false;
    }
    if warnings / 4 < f.warnings {
        return false;
    }
    f.text <= text
}

// The verdict on a document that has been read, and the buffers that go with it.
#[tactic(auto, using(crate::proofs::Entries::finishing))]
fn finish(
    doc: &[u8],
    rows: &mut [u32],
    warnings: &mut [u32],
    text: &mut [u8],
    a: Result<Fill, Refusal>,
) -> Verdict
    requires { Ended doc.now rows.old warnings.old text.old a }
    ensures { Says doc.now (room_of rows.old warnings.old text.old)
        rows.new warnings.new text.new result }
{
    match a {
        Err(refusal) => refuse(rows, warnings, text, refusal),
        Ok(f) => {
            if has_room(rows.len(), warnings.len(), text.len(), f) {
                return accept(rows, warnings, text, f);
            }
            let short = document::bare(18, doc.len());
            refuse(rows, warnings, text, short)
        }
    }
}

// Reads an introspection document into the tables lent: rows of 16 words, warnings of 4, text.
#[tactic(auto, using(crate::proofs::Entries::entry))]
pub fn parse_with_warnings(
    document: &[u8],
    rows: &mut [u32],
    warnings: &mut [u32],
    text: &mut [u8],
) -> Verdict
    ensures { Says document.now
        (room_of rows.old warnings.old text.old) rows.new
        warnings.new text.new result }
{
    if 1048576 < document.len() {
        let long = document::bare(2, 1048576);
        return refuse(rows, warnings, text, long);
    }
    let bad = utf8::ill_formed(document);
    if bad < document.len() {
        let ill = document::bare(1, bad);
        return refuse(rows, warnings, text, ill);
    }
    read_sound(document, rows, warnings, text)
}

// Reads a document that is UTF-8 and within the limit: its rows, warnings and text, or why it is refused.
#[tactic(auto, using(crate::proofs::Entries::entry))]
fn read_sound(doc: &[u8], rows: &mut [u32], warnings: &mut [u32], text: &mut [u8]) -> Verdict
    requires { Sound doc.now }
    ensures { Says doc.now (room_of rows.old warnings.old text.old)
        rows.new warnings.new text.new result }
{
    let classes = scan::classes();
    let mut r = Reader {
        doc,
        classes: &classes,
        rows: &mut *rows,
        warnings: &mut *warnings,
        text: &mut *text,
    };
    let a = document_node(&mut r);
    finish(doc, rows, warnings, text, a)
}

// Reads a file into the tables lent: a document, or one in UTF-16 that begins with a byte order mark. The text of such a file is decoded into
// the fourth buffer, and is then the document.
#[tactic(auto, using(crate::proofs::Files::files))]
pub fn read(
    document: &[u8],
    rows: &mut [u32],
    warnings: &mut [u32],
    text: &mut [u8],
    decoded: &mut [u8],
) -> Reading
    ensures { Reads document.now
        (room_of rows.old warnings.old text.old) (length decoded.old)
        rows.new warnings.new text.new decoded.new result }
{
    match utf16::decode(document, decoded) {
        Ok(None) => {
            let verdict = parse_with_warnings(document, rows, warnings, text);
            Reading {
                verdict,
                decoded: 0,
            }
        }
        Ok(Some(n)) => {
            let verdict = parse_with_warnings(&decoded[..n], rows, warnings, text);
            Reading {
                verdict,
                decoded: n,
            }
        }
        Err(fault) => {
            let verdict = refuse(rows, warnings, text, Refusal::from(fault));
            Reading {
                verdict,
                decoded: 0,
            }
        }
    }
}

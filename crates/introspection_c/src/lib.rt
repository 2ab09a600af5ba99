// The functions for C, with C's calling convention and names: each calls the function of the same name of the library `introspection`
// (include/introspection.h). This crate is the archive. A crate is a library or an archive, so there are two functions
// of each name.
#![tactic(auto)]

ghost use Rattle.std.specs.Prelude.{◌≡◌, length};
ghost use Rattle.columns.specs.Entries.{to_columns, to_rows};
ghost use Rattle.references.specs.Entries.{escaping, unescaping};
ghost use Rattle.document.specs.Whole.{room_of};
ghost use Rattle.items.specs.Several.{several_writing, several_ends};
ghost use Rattle.items.specs.Writing.{writing};
ghost use Rattle.trees.specs.Writing.{tree_writing};
ghost use Rattle.introspection.specs.Words.{Reads, ReadsStrictly, MakesText, MakesWords, MakesOrder, MakesItems, lookup_words, message_by, warning_message_by};
ghost use Rattle.order.specs.Ordering as order;

// Reads a file into the tables lent; one in UTF-16 is decoded into the fourth buffer.
#[unsafe(no_mangle)]
pub extern "C" fn introspection_read(
    document: &[u8],
    rows: &mut [u32],
    warnings: &mut [u32],
    text: &mut [u8],
    decoded: &mut [u8],
    answer: &mut [u64; 16],
)
    ensures { Reads document.now
        (room_of rows.old warnings.old text.old) (length decoded.old)
        rows.new warnings.new text.new decoded.new answer.new }
{
    introspection::introspection_read(document, rows, warnings, text, decoded, answer);
}

// Reads a file of the strict profile, as `introspection_read` does.
#[unsafe(no_mangle)]
pub extern "C" fn introspection_read_strict(
    document: &[u8],
    rows: &mut [u32],
    warnings: &mut [u32],
    text: &mut [u8],
    decoded: &mut [u8],
    answer: &mut [u64; 16],
)
    ensures { ReadsStrictly document.now
        (room_of rows.old warnings.old text.old) (length decoded.old)
        rows.new warnings.new text.new decoded.new answer.new }
{
    introspection::introspection_read_strict(document, rows, warnings, text, decoded, answer);
}

// The message of a refusal, by the words of a reader's answer, or of whatever content.
#[unsafe(no_mangle)]
pub extern "C" fn introspection_message(
    document: &[u8],
    refusal: &[u64; 16],
    output: &mut [u8],
    answer: &mut [u64; 3],
)
    ensures { MakesText (message_by document.now refusal.now)
        output.old output.new answer.new }
{
    introspection::introspection_message(document, refusal, output, answer);
}

// The message of a warning, by its words, or of whatever content.
#[unsafe(no_mangle)]
pub extern "C" fn introspection_warning_message(
    document: &[u8],
    warning: &[u32; 4],
    output: &mut [u8],
    answer: &mut [u64; 3],
)
    ensures { MakesText (warning_message_by document.now warning.now)
        output.old output.new answer.new }
{
    introspection::introspection_warning_message(document, warning, output, answer);
}

// Escapes a value.
#[unsafe(no_mangle)]
pub extern "C" fn introspection_escape(value: &[u8], output: &mut [u8], answer: &mut [u64; 3])
    ensures { MakesText (escaping value.now)
        output.old output.new answer.new }
{
    introspection::introspection_escape(value, output, answer);
}

// Unescapes a value.
#[unsafe(no_mangle)]
pub extern "C" fn introspection_unescape(value: &[u8], output: &mut [u8], answer: &mut [u64; 3])
    ensures { MakesText (unescaping value.now)
        output.old output.new answer.new }
{
    introspection::introspection_unescape(value, output, answer);
}

// Writes the item of a row.
#[unsafe(no_mangle)]
pub extern "C" fn introspection_write<'a>(
    document: &'a [u8],
    text: &'a [u8],
    rows: &[u32],
    claimed: u64,
    row: u64,
    output: &mut [u8],
    answer: &mut [u64; 3],
)
    ensures { MakesText (writing document.now text.now rows.now claimed row)
        output.old output.new answer.new }
{
    introspection::introspection_write(document, text, rows, claimed, row, output, answer);
}

// Writes the element of a row with all under it.
#[unsafe(no_mangle)]
pub extern "C" fn introspection_write_tree<'a>(
    document: &'a [u8],
    text: &'a [u8],
    rows: &[u32],
    claimed: u64,
    row: u64,
    output: &mut [u8],
    answer: &mut [u64; 3],
)
    ensures { MakesText (tree_writing document.now text.now rows.now claimed row)
        output.old output.new answer.new }
{
    introspection::introspection_write_tree(document, text, rows, claimed, row, output, answer);
}

// The part that a triple leads to.
#[unsafe(no_mangle)]
pub extern "C" fn introspection_lookup(
    document: &[u8],
    text: &[u8],
    source: u32,
    start: u32,
    len: u32,
    answer: &mut [u64; 4],
)
    ensures { answer.new ≡ lookup_words document.now text.now
        (record { source = source; start = start; len = len }) }
{
    introspection::introspection_lookup(document, text, source, start, len, answer);
}

// Puts rows down as columns.
#[unsafe(no_mangle)]
pub extern "C" fn introspection_columns(
    rows: &[u32],
    count: u64,
    columns: &mut [u32],
    answer: &mut [u64; 2],
)
    ensures { MakesWords (to_columns count rows.now)
        columns.old columns.new answer.new }
{
    introspection::introspection_columns(rows, count, columns, answer);
}

// Puts columns down as rows again.
#[unsafe(no_mangle)]
pub extern "C" fn introspection_rows(
    columns: &[u32],
    count: u64,
    rows: &mut [u32],
    answer: &mut [u64; 2],
)
    ensures { MakesWords (to_rows count columns.now)
        rows.old rows.new answer.new }
{
    introspection::introspection_rows(columns, count, rows, answer);
}

// Gives out the type definitions in an order where each comes after those that it uses.
#[unsafe(no_mangle)]
pub extern "C" fn introspection_order<'a>(
    document: &'a [u8],
    text: &'a [u8],
    rows: &[u32],
    claimed: u64,
    work: &mut [u32],
    output: &mut [u32],
    answer: &mut [u64; 4],
)
    ensures { MakesOrder (order.ordering document.now text.now rows.now claimed)
        output.old work.old output.new work.new answer.new }
{
    introspection::introspection_order(document, text, rows, claimed, work, output, answer);
}

// Writes the items of several rows after one check.
#[unsafe(no_mangle)]
pub extern "C" fn introspection_write_items<'a>(
    document: &'a [u8],
    text: &'a [u8],
    rows: &[u32],
    claimed: u64,
    asked: &[u32],
    output: &mut [u8],
    ends: &mut [u32],
    answer: &mut [u64; 3],
)
    ensures { MakesItems
        (several_writing document.now text.now rows.now claimed asked.now)
        (several_ends document.now text.now rows.now claimed asked.now)
        output.old ends.old output.new ends.new answer.new }
{
    introspection::introspection_write_items(
        document, text, rows, claimed, asked, output, ends, answer,
    );
}

// The calls for a C program: each hands its words to the function of its name in `export`, `export_weights` or `export_tables`
// and promises what that promises. `include/leading.h` declares them, and they make the archive that a host links.
#![tactic(auto)]

ghost use Rattle.std.specs.Prelude.{◌≡◌, get_or};
ghost use Rattle.model.specs.Sheet.{edition2};
ghost use Rattle.model.specs.Calls.{Buffers, export_call, weights_export, test_export, reduce_export};
ghost use Rattle.model.specs.TableCalls.{write_export, read_export};
ghost use Rattle.theory.specs.Tables.{tables_given};
ghost use Rattle.listing.specs.Listing.{buffers};
ghost use Rattle.read_call.specs.Lent.{tables_lent};
ghost use Rattle.export.specs.Exports.{version, exported, ExportPromises, ExportKeeps, TestTells, ReduceTells};
ghost use Rattle.export_tables.specs.Exports.{WriteTells, ReadTells};

use limits::STATE_BYTES;
use readings::{COST_ENTRIES, COUNT_ENTRIES, LITERAL_BYTES, NUMBERS, SIZE_ENTRIES};

// The version of these exports, which the header has too.
#[unsafe(no_mangle)]
pub extern "C" fn leading_version() -> u32
    ensures { result ≡ version }
{
    export::leading_version()
}

// The listing call: the result words are ending, listed, tested, learned, unkept and trials.
#[unsafe(no_mangle)]
pub extern "C" fn leading_list(
    sheet: &[u8],
    codes: &mut [u64],
    costs: &mut [u32],
    values: &mut [u8],
    queue: &mut [u64],
    store: &mut [u64],
    res: &mut [u32],
    k: u32,
    held: usize,
    limit: u32,
) -> u32
    ensures { (let before : Buffers = buffers codes.old costs.old values.old queue.old store.old in
        let after : Buffers = buffers codes.new costs.new values.new queue.new store.new in
        (export_call sheet.now k before held limit res.old ≡ exported result after res.new)
        × ExportPromises sheet.now k before held limit res.old result after res.new) }
{
    export::leading_list(
        sheet, codes, costs, values, queue, store, res, k, held, limit,
    )
}

// The listing call on a sheet of edition 2: the result words are ending, listed, tested, learned, unkept and trials.
#[unsafe(no_mangle)]
pub extern "C" fn leading_list_weights(
    sheet: &[u8],
    codes: &mut [u64],
    products: &mut [u64],
    values: &mut [u8],
    queue: &mut [u64],
    store: &mut [u64],
    res: &mut [u32],
    k: u32,
    held: usize,
    limit: u32,
) -> u32
    ensures { (let before : Buffers = buffers codes.old products.old values.old queue.old store.old in
        let after : Buffers = buffers codes.new products.new values.new queue.new store.new in
        (weights_export sheet.now k before held limit res.old ≡ exported result after res.new)
        × ExportKeeps edition2 sheet.now k before held limit res.old result after res.new) }
{
    export_weights::leading_list_weights(
        sheet, codes, products, values, queue, store, res, k, held, limit,
    )
}

// The test call: the result words are the answer (1 consistent, 2 inconsistent, 3 spent) and its trials; `shown` takes the
// value of every variable after 'consistent', and zeros after the others.
#[unsafe(no_mangle)]
pub extern "C" fn leading_test(
    sheet: &[u8],
    mask: u64,
    values: u64,
    limit: u32,
    shown: &mut [u8; STATE_BYTES],
    res: &mut [u32],
) -> u32
    ensures equation { test_export sheet.now mask values limit shown.old res.old ≡ (result, shown.new, res.new) }
    ensures right { TestTells sheet.now mask values result shown.new res.new }
{
    export::leading_test(sheet, mask, values, limit, shown, res)
}

// The reduce call: the result words are the answer (1 none, 2 conflict, 3 spent) and its trials; a conflict's two words go
// to `conflict`.
#[unsafe(no_mangle)]
pub extern "C" fn leading_reduce(
    sheet: &[u8],
    mask: u64,
    values: u64,
    limit: u32,
    conflict: &mut [u64],
    res: &mut [u32],
) -> u32
    ensures equation { reduce_export sheet.now mask values limit conflict.old res.old ≡ (result, conflict.new, res.new) }
    ensures right { ReduceTells sheet.now mask values result conflict.new res.new }
{
    export::leading_reduce(sheet, mask, values, limit, conflict, res)
}

// The writing call: the sheet of the tables goes to the front of `sheet`, and the number of its bytes to the word of `bytes`.
#[unsafe(no_mangle)]
pub extern "C" fn leading_write(
    sizes: &[u8],
    costs: &[u16],
    counts: &[u8],
    literals: &[u8],
    sheet: &mut [u8],
    decisions: u32,
    states: u32,
    clauses: u32,
    bytes: &mut [u32; 1],
) -> u32
    ensures equation { write_export (tables_given decisions states clauses sizes.now costs.now counts.now literals.now) sheet.old (get_or bytes.old 0 0) ≡ (result, sheet.new, get_or bytes.new 0 0) }
    ensures right { WriteTells (tables_given decisions states clauses sizes.now costs.now counts.now literals.now) result sheet.new (get_or bytes.new 0 0) }
{
    export_tables::leading_write(
        sizes, costs, counts, literals, sheet, decisions, states, clauses, bytes,
    )
}

// The reading call: the tables of the sheet go to the front of the lent ones, and its three numbers to `numbers`.
#[unsafe(no_mangle)]
pub extern "C" fn leading_read(
    sheet: &[u8],
    sizes: &mut [u8; SIZE_ENTRIES],
    costs: &mut [u16; COST_ENTRIES],
    counts: &mut [u8; COUNT_ENTRIES],
    literals: &mut [u8; LITERAL_BYTES],
    numbers: &mut [u32; NUMBERS],
) -> u32
    ensures equation { read_export sheet.now (tables_lent sizes.old costs.old counts.old literals.old numbers.old)
        ≡ (result, tables_lent sizes.new costs.new counts.new literals.new numbers.new) }
    ensures right { ReadTells sheet.now result (tables_lent sizes.new costs.new counts.new literals.new numbers.new) }
{
    export_tables::leading_read(sheet, sizes, costs, counts, literals, numbers)
}

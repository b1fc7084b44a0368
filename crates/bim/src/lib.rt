// The calls for a C host, over bytes: words are 4 big-endian bytes, the answer is a number and an area.
// include/bim.h declares them, and `bim_c` exports them under the same names; specs/Calls of `call_parts` says what each gives
// back, on every input.
#![tactic(auto)]

pub mod bits;

ghost use Rattle.std.specs.Prelude.{◌≡◌, [], ◌∷◌, length};
ghost use Rattle.numbers.specs.Mode.{always};
ghost use Rattle.init.specs.Calls as startup;
ghost use Rattle.shelf.specs.Calls as shelf;
ghost use Rattle.value.specs.Simple.{AllBytes};
ghost use Rattle.call_parts.specs.Calls.{back, check_table, read_call, write_call, set_call};
ghost use Rattle.reads.specs.Reports.{reported, report_call};

use buffers::clear;
use call_parts::area::tell_place;
use call_parts::asked::{Asked, Order};
use call_parts::sets::set_bytes;
use call_parts::tables::judge_and_tell;
use numbers::refusal::Refusal;
use numbers::{limit, mode, refusal};
use reads::read_bytes;
use reads::reports::add_bytes;
use writes::write_bytes;

// Judges a table.
pub fn bim_check_table(table: &[u8], area: &mut [u8]) -> u32
    ensures { back result area.new []
        ≡ check_table table.now (length area.old) }
{
    if area.len() != limit::AREA {
        clear(area);
        return Refusal::AreaSize.number();
    }
    judge_and_tell(table, area)
}

// Reads a payload into events and texts.
pub fn bim_read(
    table: &[u8],
    party: u32,
    root_name: u32,
    root_type: u32,
    payload: &[u8],
    events: &mut [u8],
    texts: &mut [u8],
    area: &mut [u8],
) -> u32
    ensures answer { back result area.new (events.new ∷ texts.new ∷ [])
        ≡ read_call table.now party root_name root_type payload.now
        (length events.old) (length texts.old) (length area.old) }
    ensures octets { AllBytes payload.now }
{
    if area.len() != limit::AREA {
        clear(events);
        clear(texts);
        clear(area);
        return Refusal::AreaSize.number();
    }
    let by = Asked {
        party,
        name: root_name,
        ty: root_type,
    };
    read_bytes(table, by, payload, events, texts, area)
}

// Writes events and texts as a payload.
pub fn bim_write(
    table: &[u8],
    party: u32,
    root_name: u32,
    root_type: u32,
    mode: u32,
    events: &[u8],
    texts: &[u8],
    payload: &mut [u8],
    area: &mut [u8],
) -> u32
    ensures { back result area.new (payload.new ∷ [])
        ≡ write_call table.now party root_name root_type mode events.now texts.now
        (length payload.old) (length area.old) }
{
    if area.len() != limit::AREA {
        clear(payload);
        clear(area);
        return Refusal::AreaSize.number();
    }
    let by = Order {
        party,
        name: root_name,
        ty: root_type,
        mode,
    };
    write_bytes(table, by, events, texts, payload, area)
}

// The same for a host that names no mode: every element has a length, and none a type code, whatever the table has.
pub fn bim_write_lengths(
    table: &[u8],
    party: u32,
    root_name: u32,
    root_type: u32,
    events: &[u8],
    texts: &[u8],
    payload: &mut [u8],
    area: &mut [u8],
) -> u32
    ensures { back result area.new (payload.new ∷ [])
        ≡ write_call table.now party root_name root_type always events.now texts.now
        (length payload.old) (length area.old) }
{
    bim_write(
        table,
        party,
        root_name,
        root_type,
        mode::ALWAYS,
        events,
        texts,
        payload,
        area,
    )
}

// Sets a party's mark of a type in a table, or clears it by the mark 0. A refusal leaves the table as it was.
pub fn bim_set_held(table: &mut [u8], party: u32, ty: u32, mark: u32, area: &mut [u8]) -> u32
    ensures { back result area.new (table.new ∷ [])
        ≡ set_call table.old party ty mark (length area.old) }
{
    if area.len() != limit::AREA {
        clear(area);
        return Refusal::AreaSize.number();
    }
    match set_bytes(table, party, ty, mark) {
        Ok(()) => {
            tell_place(area, 0);
            refusal::ACCEPTED
        }
        Err(f) => {
            tell_place(area, f.at);
            f.why.number()
        }
    }
}

// Writes a stream of records as a shelf file.
pub fn bim_shelf_write(records: &[u8], file: &mut [u8], area: &mut [u8]) -> u32
    ensures { shelf.back result area.new (file.new ∷ [])
        ≡ shelf.write_call records.now (length file.old) (length area.old) }
{
    shelf::calls::call_write(records, file, area)
}

// Reads a shelf file into the stream of its records.
pub fn bim_shelf_read(file: &[u8], records: &mut [u8], area: &mut [u8]) -> u32
    ensures { shelf.back result area.new (records.new ∷ [])
        ≡ shelf.read_call file.now (length records.old) (length area.old) }
{
    shelf::calls::call_read(file, records, area)
}

// Salvages a damaged shelf file: what is whole of it as a new file, and the list of what is dropped.
pub fn bim_shelf_salvage(file: &[u8], fresh: &mut [u8], dropped: &mut [u8], area: &mut [u8]) -> u32
    ensures { shelf.back result area.new (fresh.new ∷ dropped.new ∷ [])
        ≡ shelf.salvage_call file.now (length fresh.old) (length dropped.old)
        (length area.old) }
{
    shelf::calls::call_salvage(file, fresh, dropped, area)
}

// Reads a start-up message into the words of init and of codecs.
pub fn bim_init_read(message: &[u8], codecs: &mut [u8], init: &mut [u8]) -> u32
    ensures { startup.back result init.new (codecs.new ∷ [])
        ≡ startup.read_call message.now (length codecs.old) (length init.old) }
{
    init::calls::call_read(message, codecs, init)
}

// Writes a start-up message from the words of init and of codecs, whose stretches lie in the bytes given.
pub fn bim_init_write(
    init: &[u8],
    codecs: &[u8],
    given: &[u8],
    message: &mut [u8],
    area: &mut [u8],
) -> u32
    ensures { startup.back result area.new (message.new ∷ [])
        ≡ startup.write_call init.now codecs.now given.now
        (length message.old) (length area.old) }
{
    init::calls::call_write(init, codecs, given, message, area)
}

// Reads a payload and adds what its bits went to to a report, which the caller keeps. A payload that is refused is counted, and is no error of the report.
pub fn bim_report_add(
    table: &[u8],
    party: u32,
    root_name: u32,
    root_type: u32,
    payload: &[u8],
    report: &mut [u8],
) -> u32
    ensures { reported result report.new
        ≡ report_call table.now party root_name root_type payload.now report.old }
{
    if report.len() != limit::REPORT {
        clear(report);
        return Refusal::AreaSize.number();
    }
    let by = Asked {
        party,
        name: root_name,
        ty: root_type,
    };
    add_bytes(table, by, payload, report)
}

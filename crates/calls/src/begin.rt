//! Beginning an operation.
ghost use Rattle.std.specs.Prelude.{◌+◌, ◌*◌, ◌<◌, ◌≤◌};
ghost use Rattle.machine.specs.Calls.{begin_write, write_outcome, begin_read, read_outcome};
ghost use Rattle.tables.specs.View.{view, Sound, Becomes};
ghost use Rattle.calls.specs.Follows.{Follows};

use crate::permit::{permit_read, permit_write};
use decline::Decline;
use machine::call::Answer;
use machine::figures::Figures;
use machine::message::Message;
use machine::station::Stage;
use tables::lent::Tables;

// Station i's next write is out.
fn start_write<V: Copy>(tables: &mut Tables<V>, figures: &Figures<V>, i: usize, value: V)
    requires sound { Sound figures.now tables.old }
    requires station { i < figures.now.stations }
    requires numbers { ((view figures.now tables.old).station i).written < figures.now.highest }
    requires room { tables.old.pool.waiting + (3 * figures.now.stations + 1) ≤ figures.now.places }
    ensures { Becomes figures.now tables.old tables.new (begin_write i value (view figures.now tables.old)) }
{
    let number = tables.station(figures, i).written + 1;
    tables.set_written(figures, i, number);
    tables.set_stage(figures, i, Stage::Writing { number, done: 0 });
    tables.send_each(
        figures,
        |k| Message::Init {
            sender: i,
            receiver: k,
            number,
            value,
        },
    );
}

// Station i asks every station how far it is with register j.
fn start_read<V: Copy>(tables: &mut Tables<V>, figures: &Figures<V>, i: usize, j: usize)
    requires sound { Sound figures.now tables.old }
    requires station { i < figures.now.stations }
    requires register { j < figures.now.stations }
    requires numbers { (view figures.now tables.old).reads i j < figures.now.highest }
    requires room { tables.old.pool.waiting + (3 * figures.now.stations + 1) ≤ figures.now.places }
    ensures { Becomes figures.now tables.old tables.new (begin_read i j (view figures.now tables.old)) }
{
    let read = tables.read_number(figures, i, j) + 1;
    tables.set_read_number(figures, i, j, read);
    let stage = Stage::Querying {
        register: j,
        read,
        reported: 0,
    };
    tables.set_stage(figures, i, stage);
    tables.send_each(
        figures,
        |k| Message::Read {
            sender: i,
            receiver: k,
            register: j,
            read,
        },
    );
}

// A station begins to write a value into its register.
pub fn begin_write<V: Copy>(
    tables: &mut Tables<V>,
    figures: &Figures<V>,
    station: u64,
    value: V,
) -> Result<Answer<V>, Decline>
    requires { Sound figures.now tables.old }
    ensures { Follows figures.now tables.old tables.new result (write_outcome (view figures.now tables.old) station value) }
{
    let i = permit_write(tables, figures, station)?;
    start_write(tables, figures, i, value);
    Ok(Answer::Done)
}

// A station begins to read a register.
pub fn begin_read<V: Copy>(
    tables: &mut Tables<V>,
    figures: &Figures<V>,
    station: u64,
    register: u64,
) -> Result<Answer<V>, Decline>
    requires { Sound figures.now tables.old }
    ensures { Follows figures.now tables.old tables.new result (read_outcome (view figures.now tables.old) station register) }
{
    let (i, j) = permit_read(tables, figures, station, register)?;
    start_read(tables, figures, i, j);
    Ok(Answer::Done)
}

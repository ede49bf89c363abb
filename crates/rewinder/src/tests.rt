ghost use Rattle.std.specs.Prelude.{◌≡◌, ◌<◌};

use crate::{Order, OrderList, RewindError, Rewinder, ScriptError, read_script};
use fuun_base::{Steps, read_dna};
use fuun_io::MemSink;
use rope_strand::RopeStrand;
use std::alloc::Global;
use std::marker::Brand;
use std::process::Abort;
use std::sync::ledger::{Blank, Ledger};
use std::test::Fail;
use strand::Strand;

const LIMIT: u64 = 1 << 26;

const FIRST: &[u8] = b"IIPIPICPIICICIIFICCIFPPIICCFPC";

// Seven copies of a group of eight bases: one base more than before.
const GROWING: &[u8] = b"IIPIPIIICPIICIICIFPPIFPPIFPPIFPPIFPPIFPPIFPPIICCCCCCCCC";

#[test]
fn rewinds_as_worked(rt: HostRuntime) -> Result<(), Fail> {
    obey_scripts::<Brand>(&rt, rt.alloc(), Blank::new(1))?;
    keep_what_was_reached::<Brand>(&rt, rt.alloc(), Blank::new(1))?;
    fail_in_a_line::<Brand>(&rt, rt.alloc(), Blank::new(1))
}

fn obey_scripts<L: Ledger>(rt: &impl Abort, alloc: Global, blank: Blank) -> Result<(), Fail>
    requires name { blank.name ≡ L.name }
    requires parts { blank.parts ≡ L.parts }
    requires some { 0 < L.parts }
{
    let mut steps = Steps::<L>::new(blank);
    for (letters, limit, script, text) in [
        (
            FIRST,
            LIMIT,
            b"step 5\nwhere\nback 1\nshow 0 4\nstep 1".as_slice(),
            b"at 1 5 finish\nat 1 5\nat 0 30\nIIPI\nat 1 5\n".as_slice(),
        ),
        (
            FIRST,
            LIMIT,
            b"step 0\nstep 1\nstep 1\nstep 0\nback 2\nstep 2\n",
            b"at 0 30\nat 1 5\nat 1 5 finish\nat 1 5\nat 0 30\nat 1 5 finish\n",
        ),
        (FIRST, LIMIT, b"show 3 2", b"\n"),
        (FIRST, LIMIT, b"show 28 99\nshow 30 31\n", b"PC\n\n"),
        (FIRST, LIMIT, b"step 1\nshow 0 5\n", b"at 1 5\nPICFC\n"),
        (FIRST, LIMIT, b"", b""),
        (GROWING, 56, b"step 5", b"at 1 56 finish\n"),
        (
            GROWING,
            55,
            b"step 5\nwhere",
            b"at 0 55 too long\nat 0 55\n",
        ),
        (b"", 1, b"step 1\nshow 0 1", b"at 0 0 finish\n\n"),
    ] {
        let mut rewinder = rewinder_on(alloc, letters, limit, &mut steps)?;
        let orders = orders_of(alloc, script)?;
        let mut sink = MemSink::with_room(alloc, 200)?;
        rewinder.obey_all(&orders, &mut sink, &mut steps)?;
        assert_eq!(rt; sink.bytes(), text);
    }
    Ok(())
}

fn keep_what_was_reached<L: Ledger>(
    rt: &impl Abort,
    alloc: Global,
    blank: Blank,
) -> Result<(), Fail>
    requires name { blank.name ≡ L.name }
    requires parts { blank.parts ≡ L.parts }
    requires some { 0 < L.parts }
{
    let mut steps = Steps::<L>::new(blank);
    let mut rewinder = rewinder_on(alloc, FIRST, LIMIT, &mut steps)?;
    let mut sink = MemSink::with_room(alloc, 200)?;
    for (order, attempt, reached, len) in [
        (Order::Where, 0, 0, 30),
        (Order::Step(9), 1, 1, 5),
        (Order::Back(u64::MAX), 0, 1, 30),
        (
            Order::Show {
                lo: 0,
                hi: u64::MAX,
            },
            0,
            1,
            30,
        ),
        (Order::Step(u64::MAX), 1, 1, 5),
    ] {
        rewinder.command(&order, &mut sink, &mut steps)?;
        assert_eq!(rt; rewinder.attempt(), attempt);
        assert_eq!(rt; rewinder.reached(), reached);
        assert_eq!(rt; rewinder.dna().len(), len);
    }
    Ok(())
}

// A write fails within the line of a step, which was made.
fn fail_in_a_line<L: Ledger>(rt: &impl Abort, alloc: Global, blank: Blank) -> Result<(), Fail>
    requires name { blank.name ≡ L.name }
    requires parts { blank.parts ≡ L.parts }
    requires some { 0 < L.parts }
{
    let mut steps = Steps::<L>::new(blank);
    let mut rewinder = rewinder_on(alloc, FIRST, LIMIT, &mut steps)?;
    let mut sink = MemSink::with_room(alloc, 100)?;
    sink.fail_at(2)?;
    let answer = rewinder.command(&Order::Step(1), &mut sink, &mut steps);
    assert_eq!(rt; answer, Err(RewindError::WriteFault));
    assert_eq!(rt; sink.bytes(), b"at 1".as_slice());
    assert_eq!(rt; rewinder.attempt(), 1);
    Ok(())
}

#[test]
fn scripts_hold_an_order_a_line(rt: HostRuntime) -> Result<(), Fail> {
    let alloc = rt.alloc();
    let orders = orders_of(
        alloc,
        b"step 007\nback 1099511627776\nshow 0 12\nwhere\nshow 9 1",
    )?;
    let want = [
        Order::Step(7),
        Order::Back(1 << 40),
        Order::Show { lo: 0, hi: 12 },
        Order::Where,
        Order::Show { lo: 9, hi: 1 },
    ];
    assert_eq!(rt; orders.as_slice(), want.as_slice());
    for (script, line) in [
        (b"where\njump 2".as_slice(), 2),
        (b"step", 1),
        (b"step ", 1),
        (b"step  1", 1),
        (b"step 1 ", 1),
        (b"step +1", 1),
        (b"step 1099511627777", 1),
        (b"step 99999999999999999999999999", 1),
        (b"where\nwhere\r\n", 2),
        (b"where\n\nwhere\n", 2),
        (b"show 1", 1),
        (b"show 1 2 3", 1),
        (b"show  1 2", 1),
        (b"Where", 1),
    ] {
        let refused = read_script(alloc, script).err();
        assert_eq!(rt; refused, Some(ScriptError::BadScript { line }));
    }
    Ok(())
}

fn orders_of(alloc: Global, script: &[u8]) -> Result<OrderList, Fail> {
    if script.len() > 1000 {
        return Ok(OrderList::new(alloc));
    }
    Ok(read_script(alloc, script)?)
}

fn rewinder_on<L: Ledger>(
    alloc: Global,
    letters: &[u8],
    limit: u64,
    steps: &mut Steps<L>,
) -> Result<Rewinder, Fail> {
    let list = read_dna(alloc, letters)?;
    if list.len() > 1000 {
        return Ok(Rewinder::new(alloc, RopeStrand::empty(alloc), 1)?);
    }
    let dna = RopeStrand::build(alloc, list.as_slice(), steps)?;
    if limit == 0 || limit > 1 << 40 || dna.len() > limit {
        return Ok(Rewinder::new(alloc, RopeStrand::empty(alloc), 1)?);
    }
    Ok(Rewinder::new(alloc, dna, limit)?)
}

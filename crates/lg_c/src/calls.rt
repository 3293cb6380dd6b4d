//! The calls of C. `clients/c/lg_detector.h` declares them.
//!
//! Defined in: `specs/Support/Calling.antt`, `specs/Meaning/Calls.antt`, `specs/Meaning/Events.antt`.
ghost use Rattle.std.specs.Prelude.{◌≡◌, None, true, false, is_some};
ghost use Rattle.lg_c_values.specs.Meaning.Configs.{config_from_c, defaults_from_c};
ghost use Rattle.lg_c.specs.Meaning.Calls.{SetsDefaults};
ghost use Rattle.lg_c.specs.Support.Calling.{AnswersHeld, ListsHeld, OpensHeld, TellsNext};
ghost use Rattle.lg_c.specs.Meaning.Events.{ask_from_c, health_from_c, heard_from_c, leave_from_c, open_from_c};
ghost use Rattle.lg_c.specs.Meaning.Events.{pull_from_c, tick_from_c};

use crate::advance::{happen, open};
use crate::events::{
    ask_event, health_event, heard_event, leave_event, open_event, pull_event, tick_event,
};
use crate::handle::LgDetector;
use crate::listing::{close, list, next};
use crate::reply::LgReply;
use crate::status::{BAD_VALUE, OK};
use lg_c_values::{LgAddress, LgConfig, LgName, LgRecord};
use std::alloc::Global;

/// Replaces a configuration by that of a member with the default numbers, no group and no seeds.
#[unsafe(no_mangle)]
pub extern "C" fn lg_c_defaults(config: &mut LgConfig, name: &LgName, address: &LgAddress) -> u32
    ensures { SetsDefaults name.now address.now config.old result config.new }
{
    if config.begin(name, address) {
        OK
    } else {
        BAD_VALUE
    }
}

/// Opens a detector that is closed.
#[unsafe(no_mangle)]
pub extern "C" fn lg_c_open(
    alloc: Global,
    detector: &mut LgDetector,
    config: &LgConfig,
    now: u64,
    reply: &mut LgReply,
) -> u32
    ensures { OpensHeld (open_from_c config.now now) detector.old.kept.value reply.old result detector.new.kept.value
        reply.new }
{
    open(alloc, detector, &open_event(config, now), reply)
}

/// Closes a detector, and frees it. One that is closed stays so.
#[unsafe(no_mangle)]
pub extern "C" fn lg_c_close(alloc: Global, detector: &mut LgDetector)
    ensures { detector.new.kept.value ≡ None }
{
    close(alloc, detector);
}

/// A datagram is heard.
#[unsafe(no_mangle)]
pub extern "C" fn lg_c_heard(
    alloc: Global,
    detector: &mut LgDetector,
    bytes: &[u8],
    source: &LgAddress,
    now: u64,
    reply: &mut LgReply,
) -> u32
    ensures { AnswersHeld (heard_from_c bytes.now source.now now) detector.old.kept.value reply.old result
        detector.new.kept.value reply.new }
{
    happen(alloc, detector, &heard_event(bytes, source, now), reply)
}

/// Time has passed.
#[unsafe(no_mangle)]
pub extern "C" fn lg_c_tick(
    alloc: Global,
    detector: &mut LgDetector,
    words: &[u32; 8],
    now: u64,
    reply: &mut LgReply,
) -> u32
    ensures { AnswersHeld (tick_from_c words.now now) detector.old.kept.value reply.old result detector.new.kept.value
        reply.new }
{
    happen(alloc, detector, &tick_event(words, now), reply)
}

/// Asks for the record of a name.
#[unsafe(no_mangle)]
pub extern "C" fn lg_c_ask(
    alloc: Global,
    detector: &mut LgDetector,
    name: &LgName,
    now: u64,
    reply: &mut LgReply,
) -> u32
    ensures { AnswersHeld (ask_from_c name.now now) detector.old.kept.value reply.old result detector.new.kept.value
        reply.new }
{
    happen(alloc, detector, &ask_event(name, now), reply)
}

/// Asks for the health.
#[unsafe(no_mangle)]
pub extern "C" fn lg_c_health(
    alloc: Global,
    detector: &mut LgDetector,
    now: u64,
    reply: &mut LgReply,
) -> u32
    ensures { AnswersHeld (health_from_c now) detector.old.kept.value reply.old result detector.new.kept.value
        reply.new }
{
    happen(alloc, detector, &health_event(now), reply)
}

/// Asks another member for its table.
#[unsafe(no_mangle)]
pub extern "C" fn lg_c_pull(
    alloc: Global,
    detector: &mut LgDetector,
    peer: &LgAddress,
    now: u64,
    reply: &mut LgReply,
) -> u32
    ensures { AnswersHeld (pull_from_c peer.now now) detector.old.kept.value reply.old result detector.new.kept.value
        reply.new }
{
    happen(alloc, detector, &pull_event(peer, now), reply)
}

/// This member leaves.
#[unsafe(no_mangle)]
pub extern "C" fn lg_c_leave(
    alloc: Global,
    detector: &mut LgDetector,
    words: &[u32; 8],
    now: u64,
    reply: &mut LgReply,
) -> u32
    ensures { AnswersHeld (leave_from_c words.now now) detector.old.kept.value reply.old result detector.new.kept.value
        reply.new }
{
    happen(alloc, detector, &leave_event(words, now), reply)
}

/// The table: the records of all members, in the order of their names.
#[unsafe(no_mangle)]
pub extern "C" fn lg_c_members(
    alloc: Global,
    detector: &mut LgDetector,
    records: &mut [LgRecord],
    count: &mut u64,
) -> u32
    ensures { ListsHeld detector.old.kept.value detector.new.kept.value records.old count.old result records.new
        count.new }
{
    list(alloc, detector, records, count)
}

/// The moment at which the next tick is due.
#[unsafe(no_mangle)]
pub extern "C" fn lg_c_next(alloc: Global, detector: &mut LgDetector, next_moment: &mut u64) -> u32
    ensures { TellsNext detector.old.kept.value detector.new.kept.value next_moment.old result next_moment.new }
{
    next(alloc, detector, next_moment)
}

// The sample reports of document 004 in the categories that are read, of both deliveries, as lines.
// What an independent program makes of the same values is this program's `stdout`.
#![tactic(auto)]

ghost use Rattle.std.specs.Prelude.{◌≤◌};

use ash_fall::Eruption;
use hypocenter::Quake;
use hypocenter::angle::Angle;
use intensity::Shaking;
use nankai::PageNumbers;
use report::body::Body;
use report::record::Record;
use rows::common::Common;
use rows::fields::Spares;
use rows::time::Time;
use slots::slot::Slot;
use std::io;
use tsunami::Warning;
use volcano::Activity;

// Tables 2-1-4, 2-2-1 and 2-3-2: the coast of Ehime on the Uwa Sea, Kochi, the coast of Oita on the
// Bungo Channel, and Miyazaki.
const EHIME: u64 = 600;

const KOCHI: u64 = 610;

const OITA: u64 = 751;

const MIYAZAKI: u64 = 760;

// The height of every area in these tables. Table 2-3-2 gives its first area as "3m" and leaves the
// code blank: it is 3 by table 4.1.2-23 of document 001.
const THREE_METRES: u8 = 3;

// Tables 2-4-1, 2-4-2 and 2-5-1: Aso city, Takamori town and Minamiaso village in Kumamoto.
const ASO: u64 = 4321400;

const TAKAMORI: u64 = 4342800;

const MINAMIASO: u64 = 4343300;

// Tables 2-4-1 to 2-5-1: Mount Aso.
const MOUNT_ASO: u16 = 503;

// Tables 2-6-2 and 2-7-1: the Kinu river in Tochigi and Ibaraki.
const KINU: u64 = 830303020300;

// Table 2-3-1: the text of the Nankai bulletin in UTF-8, one page of 18 bytes a line, the last one
// filled up with zeros.
const TEXT: [u8; 486] = *b"\
    \xE5\x8D\x97\xE6\xB5\xB7\xE3\x83\x88\xE3\x83\xA9\xE3\x83\x95\xE6\xB2\xBF\
    \xE3\x81\x84\xE3\x81\xAE\xE3\x83\x97\xE3\x83\xAC\xE3\x83\xBC\xE3\x83\x88\
    \xE5\xA2\x83\xE7\x95\x8C\xE3\x81\xA7\xE9\x80\x9A\xE5\xB8\xB8\xE3\x81\xA8\
    \xE3\x81\xAF\xE7\x95\xB0\xE3\x81\xAA\xE3\x82\x8B\xE3\x82\x86\xE3\x81\xA3\
    \xE3\x81\x8F\xE3\x82\x8A\xE3\x81\x99\xE3\x81\xB9\xE3\x82\x8A\xE3\x81\x8C\
    \xE7\x99\xBA\xE7\x94\x9F\xE3\x81\x97\xE3\x81\xA6\xE3\x81\x84\xE3\x82\x8B\
    \xE3\x81\x93\xE3\x81\xA8\xE3\x81\x8C\xE6\x8E\xA8\xE5\xAE\x9A\xE3\x81\x95\
    \xE3\x82\x8C\xE3\x81\xBE\xE3\x81\x99\xE3\x80\x82\xE3\x81\x93\xE3\x81\xAE\
    \xE9\x80\x9A\xE5\xB8\xB8\xE3\x81\xA8\xE3\x81\xAF\xE7\x95\xB0\xE3\x81\xAA\
    \xE3\x82\x8B\xE3\x82\x86\xE3\x81\xA3\xE3\x81\x8F\xE3\x82\x8A\xE3\x81\x99\
    \xE3\x81\xB9\xE3\x82\x8A\xE3\x81\xAE\xE7\x99\xBA\xE7\x94\x9F\xE3\x81\xAB\
    \xE3\x82\x88\xE3\x82\x8A\xE3\x80\x81\xE5\x8D\x97\xE6\xB5\xB7\xE3\x83\x88\
    \xE3\x83\xA9\xE3\x83\x95\xE5\x9C\xB0\xE9\x9C\x87\xE3\x81\xAE\xE6\x83\xB3\
    \xE5\xAE\x9A\xE9\x9C\x87\xE6\xBA\x90\xE5\x9F\x9F\xE3\x81\xA7\xE3\x81\xAF\
    \xE3\x80\x81\xE5\xA4\xA7\xE8\xA6\x8F\xE6\xA8\xA1\xE5\x9C\xB0\xE9\x9C\x87\
    \xE3\x81\xAE\xE7\x99\xBA\xE7\x94\x9F\xE5\x8F\xAF\xE8\x83\xBD\xE6\x80\xA7\
    \xE3\x81\x8C\xE5\xB9\xB3\xE5\xB8\xB8\xE6\x99\x82\xE3\x81\xAB\xE6\xAF\x94\
    \xE3\x81\xB9\xE3\x81\xA6\xE7\x9B\xB8\xE5\xAF\xBE\xE7\x9A\x84\xE3\x81\xAB\
    \xE9\xAB\x98\xE3\x81\xBE\xE3\x81\xA3\xE3\x81\xA6\xE3\x81\x84\xE3\x82\x8B\
    \xE3\x81\xA8\xE8\x80\x83\xE3\x81\x88\xE3\x82\x89\xE3\x82\x8C\xE3\x81\xBE\
    \xE3\x81\x99\xE3\x80\x82\xE4\xBB\x8A\xE5\xBE\x8C\xE3\x81\xAE\xE6\x94\xBF\
    \xE5\xBA\x9C\xE3\x82\x84\xE8\x87\xAA\xE6\xB2\xBB\xE4\xBD\x93\xE3\x81\xAA\
    \xE3\x81\xA9\xE3\x81\x8B\xE3\x82\x89\xE3\x81\xAE\xE5\x91\xBC\xE3\x81\xB3\
    \xE3\x81\x8B\xE3\x81\x91\xE7\xAD\x89\xE3\x81\xAB\xE5\xBF\x9C\xE3\x81\x98\
    \xE3\x81\x9F\xE9\x98\xB2\xE7\x81\xBD\xE5\xAF\xBE\xE5\xBF\x9C\xE3\x82\x92\
    \xE3\x81\xA8\xE3\x81\xA3\xE3\x81\xA6\xE3\x81\x8F\xE3\x81\xA0\xE3\x81\x95\
    \xE3\x81\x84\xE3\x80\x82\x00\x00\x00\x00\x00\x00\x00\x00\x00\x00\x00\x00";

// A record that cannot be written leaves the frame as it was, and is shown as zeros.
fn show(rt: &impl Print, r: Record) -> io::Result<()> {
    let mut frame = [0u8; 32];
    let _ = report::write::write(&r, &mut frame);
    let mut line = [10u8; 64];
    let _ = line::write_line(&frame, &mut line);
    rt.write_all(&line)
}

// A training report of March.
fn issued(at: Time, body: Body, slots: [Slot; 16], text: [u8; 18]) -> Record {
    let common = Common {
        rc: 7,
        month: 3,
        day: at.day,
        hour: at.hour,
        minute: at.minute,
        it: 0,
    };
    Record {
        preamble: 0x53,
        reserved: 0,
        common: common,
        body: body,
        slots: slots,
        text: text,
        spares: Spares::none(),
    }
}

fn slot(hour: u8, strength: u8, place: u64) -> Slot {
    Slot {
        day: 0,
        hour: hour,
        minute: 0,
        strength: strength,
        place: place,
    }
}

fn no_slots() -> [Slot; 16] {
    [Slot::none(); 16]
}

// Only the table of intensity has more than four in a report.
fn four_slots(a: Slot, b: Slot, c: Slot, d: Slot) -> [Slot; 16] {
    let mut slots = no_slots();
    slots[0] = a;
    slots[1] = b;
    slots[2] = c;
    slots[3] = d;
    slots
}

// Table 2-1-2: off Hyuganada, 40 km deep, 6.4. As in every table, the time of the event is that of
// the issue.
fn hypocenter(at: Time) -> Record {
    let quake = Quake {
        notification1: 226,
        notification2: 0,
        notification3: 0,
        time: at,
        depth: 40,
        magnitude: 64,
        epicenter: 791,
        latitude: Angle {
            side: 0,
            degrees: 32,
            minutes: 42,
            seconds: 0,
        },
        longitude: Angle {
            side: 0,
            degrees: 132,
            minutes: 6,
            seconds: 0,
        },
    };
    issued(at, Body::Hypocenter(quake), no_slots(), [0u8; 18])
}

// Table 2-1-3: nine prefectures of the west.
fn intensity(at: Time) -> Record {
    let mut slots = no_slots();
    slots[0] = slot(0, 4, 44);
    slots[1] = slot(0, 4, 45);
    slots[2] = slot(0, 3, 39);
    slots[3] = slot(0, 3, 43);
    slots[4] = slot(0, 2, 35);
    slots[5] = slot(0, 2, 38);
    slots[6] = slot(0, 2, 40);
    slots[7] = slot(0, 2, 41);
    slots[8] = slot(0, 2, 46);
    issued(at, Body::Intensity(Shaking { time: at }), slots, [0u8; 18])
}

// An area that the wave reaches at the time of the issue: day 0 is the day of the issue.
fn area(at: Time, region: u64) -> Slot {
    Slot {
        day: 0,
        hour: at.hour,
        minute: at.minute,
        strength: THREE_METRES,
        place: region,
    }
}

fn four_areas(at: Time) -> [Slot; 16] {
    four_slots(
        area(at, EHIME),
        area(at, KOCHI),
        area(at, OITA),
        area(at, MIYAZAKI),
    )
}

fn tsunami(at: Time, warning: Warning, areas: [Slot; 16]) -> Record {
    issued(at, Body::Tsunami(warning), areas, [0u8; 18])
}

// Tables 2-1-4 and 2-2-1: a tsunami warning, and what to do where there is a warning, an advisory or
// a forecast.
fn warned() -> Warning {
    Warning {
        notification1: 122,
        notification2: 123,
        notification3: 124,
        code: 3,
    }
}

// Table 2-1-4: three areas are warned.
fn tsunami_warning(at: Time) -> Record {
    let areas = four_slots(
        area(at, EHIME),
        area(at, KOCHI),
        area(at, MIYAZAKI),
        Slot::none(),
    );
    tsunami(at, warned(), areas)
}

// Table 2-2-1: the update adds Oita.
fn tsunami_update(at: Time) -> Record {
    tsunami(at, warned(), four_areas(at))
}

// Table 2-3-2: the warning is lifted. Its row of the arrival speaks of five areas, but it names four.
fn tsunami_lifted(at: Time) -> Record {
    let lifted = Warning {
        notification1: 103,
        notification2: 0,
        notification3: 0,
        code: 2,
    };
    tsunami(at, lifted, four_areas(at))
}

fn page_text(number: u8) -> [u8; 18]
    requires { (1 ≤ number) × (number ≤ 27) }
{
    let all = TEXT;
    let first = 18 * (usize::from(number) - 1);
    let mut text = [0u8; 18];
    text.copy_from_slice(&all[first..first + 18]);
    text
}

// Table 2-3-1: the pages of the bulletin.
fn show_pages(rt: &impl Print, at: Time) -> io::Result<()> {
    for number in 1..=27 {
        let page = PageNumbers {
            serial: 5,
            number,
            total: 27,
        };
        show(
            rt,
            issued(at, Body::Nankai(page), no_slots(), page_text(number)),
        )?;
    }
    Ok(())
}

// Table 2-4-1: an eruption of Mount Aso at a time without ambiguity, and three places.
fn volcano(at: Time) -> Record {
    let activity = Activity {
        ambiguity: 0,
        time: at,
        warning: 52,
        volcano: MOUNT_ASO,
    };
    let places = four_slots(
        slot(0, 0, ASO),
        slot(0, 0, TAKAMORI),
        slot(0, 0, MINAMIASO),
        Slot::none(),
    );
    issued(at, Body::Volcano(activity), places, [0u8; 18])
}

fn aso(at: Time, warning: u8) -> Eruption {
    Eruption {
        time: at,
        warning: warning,
        volcano: MOUNT_ASO,
    }
}

fn show_ash(
    rt: &impl Print,
    eruption: Eruption,
    a: Slot,
    b: Slot,
    c: Slot,
    d: Slot,
) -> io::Result<()> {
    let at = eruption.time;
    let places = four_slots(a, b, c, d);
    show(rt, issued(at, Body::AshFall(eruption), places, [0u8; 18]))
}

// Table 2-4-2: the preliminary report.
fn show_preliminary(rt: &impl Print, at: Time) -> io::Result<()> {
    show_ash(
        rt,
        aso(at, 1),
        slot(1, 1, ASO),
        slot(1, 1, TAKAMORI),
        slot(1, 1, MINAMIASO),
        Slot::none(),
    )
}

// Table 2-5-1: eighteen places in five reports; a place may stand in one twice.
fn show_detailed(rt: &impl Print, at: Time) -> io::Result<()> {
    let eruption = aso(at, 2);
    show_ash(
        rt,
        eruption,
        slot(1, 2, ASO),
        slot(1, 2, TAKAMORI),
        slot(1, 1, MINAMIASO),
        slot(2, 1, ASO),
    )?;
    show_ash(
        rt,
        eruption,
        slot(2, 1, TAKAMORI),
        slot(2, 1, MINAMIASO),
        slot(3, 1, ASO),
        slot(3, 1, TAKAMORI),
    )?;
    show_ash(
        rt,
        eruption,
        slot(3, 1, MINAMIASO),
        slot(4, 1, ASO),
        slot(4, 1, TAKAMORI),
        slot(4, 1, MINAMIASO),
    )?;
    show_ash(
        rt,
        eruption,
        slot(5, 1, ASO),
        slot(5, 1, TAKAMORI),
        slot(5, 1, MINAMIASO),
        slot(6, 1, ASO),
    )?;
    show_ash(
        rt,
        eruption,
        slot(6, 1, TAKAMORI),
        slot(6, 1, MINAMIASO),
        Slot::none(),
        Slot::none(),
    )
}

// Tables 2-6-2 and 2-7-1: one area, whose level is 2 while it is warned and 1 when the warning is lifted.
fn flood(at: Time, level: u8) -> Record {
    let mut areas = no_slots();
    areas[0] = slot(0, level, KINU);
    issued(at, Body::Flood, areas, [0u8; 18])
}

fn at(day: u8, hour: u8, minute: u8) -> Time {
    Time {
        day: day,
        hour: hour,
        minute: minute,
    }
}

// The first delivery is on the 11th from 4:00 on, the second on the 27th from 1:00 on.
fn main(rt: HostRuntime) -> io::Result<()> {
    show(&rt, hypocenter(at(11, 4, 5)))?;
    show(&rt, hypocenter(at(27, 1, 5)))?;
    show(&rt, intensity(at(11, 4, 5)))?;
    show(&rt, intensity(at(27, 1, 5)))?;
    show(&rt, tsunami_warning(at(11, 4, 5)))?;
    show(&rt, tsunami_warning(at(27, 1, 5)))?;
    show(&rt, tsunami_update(at(11, 4, 25)))?;
    show(&rt, tsunami_update(at(27, 1, 25)))?;
    show_pages(&rt, at(11, 4, 35))?;
    show_pages(&rt, at(27, 1, 35))?;
    show(&rt, tsunami_lifted(at(11, 4, 35)))?;
    show(&rt, tsunami_lifted(at(27, 1, 35)))?;
    show(&rt, volcano(at(11, 5, 10)))?;
    show(&rt, volcano(at(27, 2, 10)))?;
    show_preliminary(&rt, at(11, 5, 10))?;
    show_preliminary(&rt, at(27, 2, 10))?;
    show_detailed(&rt, at(11, 5, 20))?;
    show_detailed(&rt, at(27, 2, 20))?;
    show(&rt, flood(at(11, 5, 35), 2))?;
    show(&rt, flood(at(27, 2, 35), 2))?;
    show(&rt, flood(at(11, 5, 50), 1))?;
    show(&rt, flood(at(27, 2, 50), 1))?;
    Ok(())
}

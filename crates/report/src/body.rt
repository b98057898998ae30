// What a category has, each in its own crate: a category that is added is added here.
ghost use Rattle.std.specs.Prelude.{◌≡◌, refl};
ghost use Rattle.bits.specs.Frame.{frame_in};
ghost use Rattle.report.specs.declared.body.Body.{Body};
ghost use Rattle.report.specs.declared.body.Body.TheVariants.{NoCategory, Hypocenter, Intensity, Nankai, Tsunami, Volcano, AshFall, Flood};
ghost use Rattle.report.specs.Categories.{layout, body_from, sides_of, paged_of};
ghost use Rattle.report.specs.Records.{body_of};
ghost use Rattle.report.specs.Runs.Reading.{content_as, found_as, rules_find};
ghost use Rattle.report.specs.Runs.Told.{told_of, with_spares};
ghost use Rattle.rows.specs.declared.fields.Spares.{Spares};
ghost use Rattle.rows.specs.Refusals.{outcome};
ghost use Rattle.rows.specs.Runs.Fields.{fields_in, kept_in, table_in};
ghost use Rattle.rows.specs.Values.{Sides, sides_at};

use crate::nothing::Nothing;
use ash_fall::Eruption;
use category::Category;
use flood::Flood;
use hypocenter::Quake;
use intensity::Shaking;
use nankai::PageNumbers;
use rows::common::Common;
use rows::fields::{Fields, Spares, Table};
use rows::refusal::Refusal;
use slots::slot::Slot;
use tsunami::Warning;
use volcano::Activity;

// What the category of a record has beside slots and text. `NoCategory` is none: the record of
// zeros has it.
#[derive(Clone, Copy)]
pub enum Body {
    NoCategory,
    Hypocenter(Quake),
    Intensity(Shaking),
    Nankai(PageNumbers),
    Tsunami(Warning),
    Volcano(Activity),
    AshFall(Eruption),
    // It has nothing beside its slots.
    Flood,
}

// A category that a record may have.
trait Held: Category {
    ghost body: { Self → Body };

    fn body(self) -> Body
        ensures { result ≡ body self };

    ghost laid: { (x : Self) → layout (body x) ≡ Self.layout };

    ghost sided: { (x : Self) (z : Spares) → sides_of (body x) z ≡ Self.values x z };
}

impl Held for Quake {
    ghost body = { Hypocenter };

    fn body(self) -> Body {
        Body::Hypocenter(self)
    }

    ghost laid = { λ x. refl };

    ghost sided = { λ x z. refl };
}

impl Held for Shaking {
    ghost body = { Intensity };

    fn body(self) -> Body {
        Body::Intensity(self)
    }

    ghost laid = { λ x. refl };

    ghost sided = { λ x z. refl };
}

impl Held for PageNumbers {
    ghost body = { Nankai };

    fn body(self) -> Body {
        Body::Nankai(self)
    }

    ghost laid = { λ x. refl };

    ghost sided = { λ x z. refl };
}

impl Held for Warning {
    ghost body = { Tsunami };

    fn body(self) -> Body {
        Body::Tsunami(self)
    }

    ghost laid = { λ x. refl };

    ghost sided = { λ x z. refl };
}

impl Held for Activity {
    ghost body = { Volcano };

    fn body(self) -> Body {
        Body::Volcano(self)
    }

    ghost laid = { λ x. refl };

    ghost sided = { λ x z. refl };
}

impl Held for Eruption {
    ghost body = { AshFall };

    fn body(self) -> Body {
        Body::AshFall(self)
    }

    ghost laid = { λ x. refl };

    ghost sided = { λ x z. refl };
}

impl Held for Flood {
    ghost body = { λ x. Body.Flood };

    fn body(self) -> Body {
        Body::Flood
    }

    ghost laid = { λ x. refl };

    ghost sided = { λ x z. refl };
}

// A body, and the spares that stand before and behind its fields.
#[derive(Clone, Copy)]
pub struct BodyAndSpares {
    pub body: Body,
    pub spares: Spares,
}

// What stands from bit 43 up to bit 213 of a frame that keeps all rules from bit 8 on.
#[derive(Clone, Copy)]
pub struct Content {
    pub body: Body,
    pub slots: [Slot; 16],
    pub text: [u8; 18],
    pub spares: Spares,
}

impl Content {
    // Of a frame in this category. It is decided on where its fields are taken out of the frame, before a record is made of them.
    fn within<C: Held + Copy>(f: &[u8]) -> Result<Content, Refusal>
        ensures { let own = C.body (C.said (sides_at (frame_in f.now) C.layout)) in
            result ≡ outcome (rules_find (frame_in f.now) own) (content_as (frame_in f.now) own) }
    {
        let own = C::of(f);
        let slots = C::slots(f);
        let spares = C::spares(f);
        own.check(Common::of(f), &slots, spares)?;
        Ok(Content {
            body: own.body(),
            slots,
            text: C::text(f),
            spares,
        })
    }

    // 7, then 8 and 10.
    pub(crate) fn of(f: &[u8]) -> Result<Content, Refusal>
        ensures { result ≡ outcome (found_as (frame_in f.now) (body_of (frame_in f.now))) (content_as (frame_in f.now) (body_of (frame_in f.now))) }
    {
        match bits::field::<u8>(f, 17, 4) {
            2 => Content::within::<Quake>(f),
            3 => Content::within::<Shaking>(f),
            4 => Content::within::<PageNumbers>(f),
            5 => Content::within::<Warning>(f),
            8 => Content::within::<Activity>(f),
            9 => Content::within::<Eruption>(f),
            11 => Content::within::<Flood>(f),
            _ => Err(Refusal::Category),
        }
    }
}

impl Body {
    // With what stands in its spares.
    fn with_spares(self, first: u64, second: u64) -> BodyAndSpares
        ensures { result ≡ record { body = self; spares = record { first = first; second = second } } }
    {
        BodyAndSpares {
            body: self,
            spares: Spares { first, second },
        }
    }

    // The body of a category's code that numbers say, of each as much as its field holds, and the spares among them.
    pub fn of_values(code: u8, front: &[u64; 18], behind: &[u64; 3]) -> BodyAndSpares
        ensures { result ≡ with_spares front.now behind.now (body_from (kept_in front.now behind.now) code) }
    {
        let (first, second) = (front[0], behind[0]);
        match code {
            2 => Quake::of_values(front, behind)
                .body()
                .with_spares(first, second),
            3 => Shaking::of_values(front, behind)
                .body()
                .with_spares(first, second),
            4 => PageNumbers::of_values(front, behind)
                .body()
                .with_spares(first, behind[2]),
            5 => Warning::of_values(front, behind)
                .body()
                .with_spares(first, 0),
            8 => Activity::of_values(front, behind)
                .body()
                .with_spares(first, second),
            9 => Eruption::of_values(front, behind)
                .body()
                .with_spares(first, second),
            11 => Body::Flood.with_spares(first, second),
            _ => Body::NoCategory.with_spares(first, 0),
        }
    }

    // Its category's code, 0 for none.
    pub fn code(self) -> u8
        ensures { result ≡ (layout self).code }
    {
        self.table().code
    }

    // How many slots it has.
    pub fn count(self) -> usize
        ensures { result ≡ (layout self).slots.count }
    {
        self.table().count
    }

    // What is found by all rules from bit 8 to bit 213.
    pub(crate) fn check(
        self,
        common: Common,
        slots: &[Slot; 16],
        spares: Spares,
    ) -> Result<(), Refusal>
        ensures { result ≡ told_of self common slots.now spares }
    {
        match self {
            Body::NoCategory => Nothing.check(common, slots, spares),
            Body::Hypocenter(own) => own.check(common, slots, spares),
            Body::Intensity(own) => own.check(common, slots, spares),
            Body::Nankai(own) => own.check(common, slots, spares),
            Body::Tsunami(own) => own.check(common, slots, spares),
            Body::Volcano(own) => own.check(common, slots, spares),
            Body::AshFall(own) => own.check(common, slots, spares),
            Body::Flood => Flood.check(common, slots, spares),
        }
    }

    // Its table.
    pub fn table(self) -> Table
        ensures { result ≡ table_in (layout self) }
    {
        match self {
            Body::NoCategory => Nothing::table(),
            Body::Hypocenter(_) => Quake::table(),
            Body::Intensity(_) => Shaking::table(),
            Body::Nankai(_) => PageNumbers::table(),
            Body::Tsunami(_) => Warning::table(),
            Body::Volcano(_) => Activity::table(),
            Body::AshFall(_) => Eruption::table(),
            Body::Flood => Flood::table(),
        }
    }

    // Its table, and its fields in the table's order. They are asked for apart from the verdict: whoever wants the one
    // would have the stack for both.
    pub fn fields(self, spares: Spares) -> Fields
        ensures { result ≡ fields_in (layout self) (sides_of self spares) }
    {
        match self {
            Body::NoCategory => Nothing.fields(spares),
            Body::Hypocenter(own) => own.fields(spares),
            Body::Intensity(own) => own.fields(spares),
            Body::Nankai(own) => own.fields(spares),
            Body::Tsunami(own) => own.fields(spares),
            Body::Volcano(own) => own.fields(spares),
            Body::AshFall(own) => own.fields(spares),
            Body::Flood => Flood.fields(spares),
        }
    }

    // The page that it brings, where its category has pages.
    pub fn page(self) -> Option<PageNumbers>
        ensures { result ≡ paged_of self }
    {
        match self {
            Body::Nankai(page) => Some(page),
            _ => None,
        }
    }
}

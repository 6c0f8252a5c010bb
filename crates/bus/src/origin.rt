// Where the word that a record puts on the bus comes from (W-212): "sender and place, 255 and 0 for a feed that answers 4, 255 and 255 where no
// word was on the bus".
ghost use Rattle.std.specs.Prelude.{◌≡◌, ◌==◌};
ghost use Rattle.rules.specs.Moves.{no_origin};
ghost use Rattle.bus.specs.Origins.{origin_in, fed_from, CarriedFrom};

use numbers::answers::Reason;
use plan::{CHANNELS, ENVIRONMENT, Wire};
use state::entry::{Entry, Item};
use words::{index, low_byte};

#[derive(Clone, Copy)]
pub struct Origin {
    pub sender: u8,
    pub place: u8,
}

// No word was on the bus.
pub fn nowhere() -> Origin
    ensures { origin_in result ≡ no_origin }
{
    Origin {
        sender: ENVIRONMENT,
        place: 255,
    }
}

// Whether an answer of this code says that a word was on the bus: one that was carried, or one that was fed.
fn on_the_bus(code: u32) -> bool
    ensures { result ≡ (code == 4) }
{
    code == Reason::Carried.code() as u32
}

// Of a feed with an answer of this code.
pub fn fed(code: u32) -> Origin
    ensures { origin_in result ≡ fed_from code }
{
    if on_the_bus(code) {
        return Origin {
            sender: ENVIRONMENT,
            place: 0,
        };
    }
    nowhere()
}

// Of a carry with an answer of this code: `oldest` is what stood where the board's oldest entry does, before it.
pub fn carried(wires: &[Wire; CHANNELS], code: u32, oldest: Entry) -> Origin
    ensures { CarriedFrom wires.now code oldest (origin_in result) }
{
    if !on_the_bus(code) {
        return nowhere();
    }
    let item = oldest.item;
    let Item::Word {
        channel,
        word: _,
        place,
    } = item
    else {
        return nowhere();
    };
    Origin {
        sender: low_byte(wires[index::<CHANNELS>(channel)].sender),
        place: place,
    }
}

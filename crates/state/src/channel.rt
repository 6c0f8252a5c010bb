// The environment as a channel's end, and whether a channel is full.
ghost use Rattle.std.specs.Prelude.{◌≡◌};
ghost use Rattle.state.specs.Channel.{full_in};

// The environment as a number of a wire.
pub const ENVIRONMENT: u32 = plan::ENVIRONMENT as u32;
// Words of a channel, unread and in queues together, at which it is full.
pub const OCCUPANCY: u32 = 8;

// Whether a channel with this reader and this total, its unread words and its words in queues together, is full (document 01: held).
pub fn full(reader: u32, total: u32) -> bool
    ensures { result ≡ full_in reader total }
{
    reader != ENVIRONMENT && total >= OCCUPANCY
}

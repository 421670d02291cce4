// The answers of reading and writing files.
ghost use Rattle.std.specs.Prelude.{◌≡◌};
ghost use Rattle.blocks.specs.Block.{said};
ghost use Rattle.flat.specs.Flat.{flat_stored};

use crate::HouayletanStored;
use blocks::stored::Stored;

impl From<Stored> for HouayletanStored {
    ghost from_gives = { λ stored flat. flat ≡ flat_stored (said stored) };

    fn from(stored: Stored) -> HouayletanStored {
        match stored {
            Ok(nodes) => HouayletanStored {
                number: 0,
                place: 0,
                nodes,
            },
            Err(refused) => HouayletanStored {
                number: refused.reason.number(),
                place: refused.place,
                nodes: 0,
            },
        }
    }
}

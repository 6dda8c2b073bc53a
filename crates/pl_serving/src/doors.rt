//! Four handles of a door.

ghost use Rattle.std.specs.Prelude.{◌≡◌, ◌<◌, ◌-◌};
ghost use Rattle.pl_outfit.specs.Outfit.{outside};
ghost use Rattle.pl_serving.specs.Doors.{OpensFour};

use pl_base::Text;
use pl_listener::ListenFault;
use pl_outfit::Outfit;
use pl_serve::Four;
use std::alloc::Global;

/// Four handles of a new door. Where there aren't four, those that are there are ended.
pub(crate) fn four_doors<O: Outfit>(
    alloc: Global,
    address: &Text,
    outfit: &mut O,
) -> Result<Four<O::Door>, ListenFault>
    ensures { OpensFour O.Door.tells address.now
        (outside O.In.Source O.Out.Sink (O.view outfit.old)) result
        (outside O.In.Source O.Out.Sink (O.view outfit.new)) }
{
    let mut first = outfit.door(alloc, address)?;
    let second = match outfit.share(alloc, &mut first) {
        Ok(handle) => handle,
        Err(fault) => {
            outfit.door_back(first);
            return Err(fault);
        }
    };
    let third = match outfit.share(alloc, &mut first) {
        Ok(handle) => handle,
        Err(fault) => {
            outfit.door_back(first);
            outfit.door_back(second);
            return Err(fault);
        }
    };
    match outfit.share(alloc, &mut first) {
        Ok(fourth) => Ok(Four {
            first,
            second,
            third,
            fourth,
        }),
        Err(fault) => {
            outfit.door_back(first);
            outfit.door_back(second);
            outfit.door_back(third);
            Err(fault)
        }
    }
}

//! The elements of a map.
ghost use Rattle.std.specs.Prelude.{◌≡◌, ◌∷◌, ◌++◌, [], List, None, Some, OnOk, OnErr, option_copied, slice_get};
ghost use Rattle.std.specs.List.{flat_map};
ghost use Rattle.element_store.specs.State.{key_at};
ghost use Rattle.hash_index.specs.Order.{AreInOrder};
ghost use Rattle.script_lines.specs.declared.reply.Reply.{Reply};
ghost use Rattle.script_lines.specs.declared.reply.Reply.TheVariants.{End};
ghost use Rattle.script_lines.specs.ReplyText.{reply_text, GoesOn};
ghost use Rattle.control.specs.Replies.{AreElements};

use bpf_model::MapId;
use maps::Map;
use script_lines::{Reply, write_reply};
use std::alloc::AllocError;
use world::World;

/// Adds the lines of the elements in these map slots, which are those of all elements in the order of their keys.
fn write_slots(map: &Map, slots: &[usize], out: &mut Vec<u8>) -> Result<(), AllocError>
    requires { AreInOrder map.now.index (key_at map.now.slots) None slots.now }
    ensures ok { OnOk result ((elements : List Reply) × AreElements (Some map.now) None elements
        × (out.new.items ≡ out.old.items ++ flat_map reply_text elements)) }
    ensures err { OnErr result (GoesOn out.old.items out.new.items) }
{
    for slot in slots {
        let (key, value) = map.element(*slot);
        write_reply(&Reply::Element { key, value }, out)?;
    }
    Ok(())
}

/// Adds the lines of the elements of a map, if there is one, in the order of their keys.
fn write_map(map: Option<&Map>, out: &mut Vec<u8>) -> Result<(), AllocError>
    ensures ok { OnOk result ((elements : List Reply)
        × AreElements (option_copied map.entry) None elements
        × (out.new.items ≡ out.old.items ++ flat_map reply_text elements)) }
    ensures err { OnErr result (GoesOn out.old.items out.new.items) }
{
    match map {
        None => Ok(()),
        Some(found) => {
            let slots = found.in_order(*out.allocator())?;
            write_slots(found, &slots, out)
        }
    }
}

/// Adds the lines of the elements of a map, in byte order of their keys, and the end, as a script's `dump` is replied.
///
/// The error is that there is no memory left. A part of the lines may have been added then.
pub fn write_elements(world: &World, map: MapId, out: &mut Vec<u8>) -> Result<(), AllocError>
    ensures ok { OnOk result ((elements : List Reply)
        × AreElements (slice_get world.now.maps map) None elements
        × (out.new.items ≡ out.old.items ++ flat_map reply_text (elements ++ End ∷ []))) }
    ensures err { OnErr result (GoesOn out.old.items out.new.items) }
{
    write_map(world.registry().map(map), out)?;
    write_reply(&Reply::End, out)
}

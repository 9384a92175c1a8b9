// Names of files beside one another: that of a new file, which is to take another's place, is made
// of the other's. Nothing here opens a file.
#![tactic(auto)]

ghost use Rattle.files.specs.Beside.{Beside};

// Puts `.new` after the name in the first n bytes of the room, and answers the length of the two;
// `None`, and the room as it was, where that is more than the room has.
#[tactic(auto, using(crate::proofs::Naming::no_room, crate::proofs::Naming::named))]
pub fn beside(room: &mut [u8], n: usize) -> Option<usize>
    ensures { Beside room.old n result room.new }
{
    let end = n.checked_add(4)?;
    if room.len() < end {
        return None;
    }
    room[n..end].copy_from_slice(b".new");
    Some(end)
}

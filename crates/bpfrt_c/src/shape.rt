//! Shapes of maps, as C writes them.
ghost use Rattle.std.specs.Prelude.{◌≡◌, ◌≤◌, length, IfOk, IfErr};
ghost use Rattle.bpf_model.specs.declared.limits.TheConstants.{MAX_MAPS};
ghost use Rattle.bpfrt_c.specs.Shapes.{shape_in_c, AreShapesInC, IsShapesFault};

use bpf_model::{MAX_MAPS, MapKind, MapShape};
use host_programs::OpenFault;
use std::alloc::{AllocFailed, Global};

/// In C `struct bpfrt_map_shape`. Types are Linux's: 1 is a hash map, 2 an array, and any other none.
#[repr(C)]
#[derive(Clone, Copy, Debug, PartialEq, Eq)]
pub struct Shape {
    pub kind: u32,
    pub key_size: u32,
    pub value_size: u32,
    pub max_entries: u32,
    pub spare: u32,
    pub reuse_limit: u32,
}

/// The shape that C wrote, where its type is one.
fn shape_of(shape: &Shape) -> Option<MapShape>
    ensures { result ≡ shape_in_c shape.now }
{
    let kind = match shape.kind {
        1 => MapKind::Hash,
        2 => MapKind::Array,
        _ => return None,
    };
    Some(MapShape {
        kind,
        key_len: shape.key_size as usize,
        value_len: shape.value_size as usize,
        entries: shape.max_entries as usize,
        spare: shape.spare as usize,
        reuse_limit: shape.reuse_limit,
    })
}

/// Why shapes are not read: more than there may be, one of an unknown type, or no memory.
#[derive(Clone, Copy, Debug, PartialEq, Eq)]
pub enum ShapesFault {
    Fault(OpenFault),
    Memory,
}

impl<T: Drop> From<AllocFailed<T>> for ShapesFault {
    ghost use Rattle.bpfrt_c.specs.declared.shape.ShapesFault.TheVariants.{Memory};

    ghost from_gives = { λ _ e. e ≡ Memory };

    fn from(_: AllocFailed<T>) -> ShapesFault {
        ShapesFault::Memory
    }
}

/// The shapes that C wrote.
pub fn shapes_of(alloc: Global, shapes: &[Shape]) -> Result<Vec<MapShape>, ShapesFault>
    ensures shapes { IfOk result (λ v. AreShapesInC shapes.now v.items) }
    ensures few { IfOk result (λ v. length v.items ≤ MAX_MAPS) }
    ensures fault { IfErr result (IsShapesFault shapes.now) }
{
    if shapes.len() > MAX_MAPS {
        return Err(ShapesFault::Fault(OpenFault::TooManyMaps));
    }
    let mut read = Vec::new(alloc);
    for map in 0..shapes.len() {
        let written = shapes[map];
        let Some(shape) = shape_of(&written) else {
            return Err(ShapesFault::Fault(OpenFault::BadShape { map }));
        };
        read.push(shape)?;
    }
    Ok(read)
}

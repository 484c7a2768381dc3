//! The elements of a new array.
ghost use Rattle.std.specs.Prelude.{◌≡◌, ◌≤◌, ◌<◌, ◌^◌, ◌++◌, IfOk, IfErr, OnOk, OnErr, replicate};
ghost use Rattle.bpf_model.specs.declared.limits.MapKind.TheVariants.{Array};
ghost use Rattle.bpf_model.specs.declared.limits.TheConstants.{VALUE_BYTES};
ghost use Rattle.bpf_model.specs.Shapes.{IsShape};
ghost use Rattle.bpf_model.specs.MapState.{index_key as index_key_of, array_element as array_element_of, new_elements};
ghost use Rattle.reference_store.specs.declared.fault.ModelFault.TheVariants.{Memory};
ghost use Rattle.reference_store.specs.State.{element_of, elements_of};

use crate::element::{Element, Life};
use crate::fault::ModelFault;
use bpf_model::{KeyBytes, MapShape, VALUE_BYTES, ValueBytes, array_of};

/// The key of an index: its bytes, the lowest first. `OutOfRange` where they are more than a key has.
fn index_key(index: usize) -> Result<KeyBytes, ModelFault>
    ensures key { IfOk result (λ key. key.items ≡ index_key_of index) }
    ensures fault { OnErr result (2 ^ 32 ≤ index) }
{
    match u32::try_from(index) {
        Ok(number) => Ok(array_of(&number.to_le_bytes())),
        Err(_) => Err(ModelFault::OutOfRange),
    }
}

/// A value of so many zeros. `OutOfRange` where they are more than a value may have.
fn zeros(len: usize) -> Result<ValueBytes, ModelFault>
    ensures value { IfOk result (λ value. value.items ≡ replicate len 0) }
    ensures fault { OnErr result (VALUE_BYTES < len) }
{
    if len > VALUE_BYTES {
        return Err(ModelFault::OutOfRange);
    }
    let zeros = [0; VALUE_BYTES];
    Ok(array_of(&zeros[..len]))
}

/// The element of an index of an array. `OutOfRange` where the index has no key, or no value is so long.
fn array_element(map: usize, shape: &MapShape, index: usize) -> Result<Element, ModelFault>
    ensures element { IfOk result (λ e. element_of e ≡ array_element_of map shape.now index) }
    ensures fault { IsShape shape.now → index < shape.now.entries → OnErr result ⊥ }
{
    Ok(Element {
        map,
        key: index_key(index)?,
        value: zeros(shape.value_len)?,
        uses: 1,
        life: Life::Linked,
    })
}

/// Adds the elements of all indices of an array. Errors: `Memory`; `OutOfRange` where no map may have this shape.
pub(crate) fn add_elements(
    elements: &mut Vec<Element>,
    map: usize,
    shape: &MapShape,
) -> Result<(), ModelFault>
    ensures elements { OnOk result
        (elements_of elements.new.items
        ≡ elements_of elements.old.items ++ new_elements Array map shape.now) }
    ensures fault { IsShape shape.now → IfErr result (λ fault. fault ≡ Memory) }
{
    for index in 0..shape.entries {
        let element = array_element(map, shape, index)?;
        match elements.push(element) {
            Ok(()) => {}
            Err(_) => return Err(ModelFault::Memory),
        }
    }
    Ok(())
}

//! Maps and programs out of lines of text.
ghost use Rattle.std.specs.Prelude.{IfOk};
ghost use Rattle.bpf_model.specs.View.{AreNewMaps};

use crate::pair::Pair;
use crate::programs::PROGRAMS;
use crate::text::array;
use asm::assemble;
use bpf_model::{CTX_BYTES, INDEX_BYTES, MAX_MAPS, MapKind, MapShape};
use insn_codec::{Program, decode};
use maps::Registry;
use reference_model::{Loaded as PlainLoaded, Machine};
use std::alloc::{AllocError, Global};
use std::test::Fail;
use verifier::{ProgramRefusal, verify};
use world::{Loaded, World, WorldFault};

/// The maps of a world, and its programs: as the reference model takes them and, of those that are accepted, as the world
/// does, from the start or later.
#[derive(Drop)]
pub struct Setup {
    alloc: Global,
    pub shapes: Vec<MapShape>,
    plain: Vec<PlainLoaded>,
    pub loaded: Vec<Loaded>,
    later: Vec<Loaded>,
}

/// The numbers in a text of words; what is none is passed over.
fn numbers_in(alloc: Global, text: &str) -> Result<Vec<usize>, AllocError> {
    let mut numbers = Vec::new(alloc);
    for word in text.split(' ') {
        if let Ok(number) = word.parse::<usize>() {
            numbers.push(number)?;
        }
    }
    Ok(numbers)
}

/// The shape of these numbers: VALUE, ENTRIES of an array, and KEY, VALUE, ENTRIES, SPARE, REUSE of a hash map.
fn shape_of(numbers: &[usize]) -> Option<MapShape> {
    match numbers {
        [value_len, entries] => Some(MapShape {
            kind: MapKind::Array,
            key_len: INDEX_BYTES,
            value_len: *value_len,
            entries: *entries,
            spare: 0,
            reuse_limit: 1,
        }),
        [key_len, value_len, entries, spare, reuse_limit] => Some(MapShape {
            kind: MapKind::Hash,
            key_len: *key_len,
            value_len: *value_len,
            entries: *entries,
            spare: *spare,
            reuse_limit: u32::try_from(*reuse_limit).unwrap_or(u32::MAX),
        }),
        _ => None,
    }
}

/// The lines of the program of this name, or these lines.
fn named(name: &str) -> &str {
    for line in PROGRAMS.lines() {
        if let Some((first, lines)) = line.split_once(": ") {
            if first == name {
                return lines;
            }
        }
    }
    name
}

/// The program of lines, which a semicolon and a space part, or of its bytes.
fn program_of(alloc: Global, kind: &str, text: &str) -> Result<Program, Fail> {
    if kind == "code" {
        let digits = text.replace(alloc, " ", "")?;
        return Ok(decode(alloc, &hex::decode(alloc, digits.as_str())?)?);
    }
    let lines = named(text).replace(alloc, "; ", "\n")?;
    Ok(assemble(alloc, &lines)?)
}

/// Adds a new map, m and its number.
fn add_map(
    alloc: Global,
    registry: &mut Registry,
    number: usize,
    shape: MapShape,
) -> Result<(), Fail>
    requires new { AreNewMaps registry.old.maps }
    ensures new { AreNewMaps registry.new.maps }
{
    let name = format!(in alloc; "m{number}")?;
    registry.create(&name, shape)?;
    Ok(())
}

/// New maps m0, m1 and so on of these shapes.
fn registry_of(alloc: Global, shapes: &[MapShape]) -> Result<Registry, Fail>
    ensures new { IfOk result (λ r. AreNewMaps r.maps) }
{
    let mut registry = Registry::new(alloc);
    for (number, shape) in shapes.iter().enumerate() {
        add_map(alloc, &mut registry, number, *shape)?;
    }
    Ok(registry)
}

/// A world of new maps and programs.
pub fn world_of(
    alloc: Global,
    shapes: &[MapShape],
    loaded: Vec<Loaded>,
) -> Result<Result<World, WorldFault>, Fail> {
    let registry = registry_of(alloc, shapes)?;
    Ok(World::new(alloc, registry, loaded))
}

/// A program as the reference model takes it.
fn plain_of(
    alloc: Global,
    program: &Program,
    maps: &[usize],
    context_len: usize,
) -> Result<PlainLoaded, AllocError> {
    let code = Vec::from_slice(alloc, program.instructions())?;
    let maps = Vec::from_slice(alloc, maps)?;
    Ok(PlainLoaded {
        code,
        maps,
        context_len,
    })
}

/// The world of new maps and programs, alone in a list.
fn worlds_of(alloc: Global, shapes: &[MapShape], loaded: Vec<Loaded>) -> Result<Vec<World>, Fail> {
    let world = world_of(alloc, shapes, loaded)??;
    let mut worlds = Vec::new(alloc);
    worlds.push(world)?;
    Ok(worlds)
}

impl Setup {
    /// What the lines say: `map` and a shape; `prog CONTEXT MAP ..: LINES` or `code CONTEXT MAP ..: BYTES`, and behind ` = ` the
    /// verdict, where that is no acceptance; `later` for `prog`, where the world has the program only once it is loaded; `bind MAP ..`
    /// where the last program is bound to other maps; and comments.
    pub fn read(alloc: Global, lines: &str) -> Result<Setup, Fail> {
        let mut setup = Setup {
            alloc,
            shapes: Vec::new(alloc),
            plain: Vec::new(alloc),
            loaded: Vec::new(alloc),
            later: Vec::new(alloc),
        };
        for line in lines.lines() {
            let (kind, rest) = line.split_once(' ').unwrap_or((line, ""));
            match kind {
                "#" => {}
                "map" => setup.add_shape(rest)?,
                "bind" => setup.bind(rest)?,
                _ => setup.take(kind, rest)?,
            }
        }
        Ok(setup)
    }

    fn add_shape(&mut self, text: &str) -> Result<(), Fail> {
        let numbers = numbers_in(self.alloc, text)?;
        match shape_of(&numbers) {
            Some(shape) => Ok(self.shapes.push(shape)?),
            None => Err(Fail::from("no shape")),
        }
    }

    /// Binds the last program to other maps than those that it was verified for.
    fn bind(&mut self, text: &str) -> Result<(), AllocError> {
        let numbers = numbers_in(self.alloc, text)?;
        if let Some(last) = self.loaded.last_mut() {
            last.maps = array(&numbers);
        }
        Ok(())
    }

    /// The shapes of the maps of these numbers; of a number that no map has none.
    fn chosen(&self, maps: &[usize]) -> Result<Vec<MapShape>, AllocError> {
        let mut chosen = Vec::new(self.alloc);
        for number in maps {
            if let Some(shape) = self.shapes.get(*number) {
                chosen.push(*shape)?;
            }
        }
        Ok(chosen)
    }

    /// Adds a program, and answers why it is refused, if it is.
    fn add(
        &mut self,
        program: Program,
        maps: &[usize],
        context_len: usize,
    ) -> Result<Option<ProgramRefusal>, AllocError> {
        let alloc = self.alloc;
        let context_len = context_len.min(CTX_BYTES);
        let mut shapes = self.chosen(maps)?;
        shapes.truncate(MAX_MAPS);
        self.plain
            .push(plain_of(alloc, &program, maps, context_len)?)?;
        match verify(alloc, program, &shapes, context_len) {
            Ok(verified) => {
                let maps = array(maps);
                self.loaded.push(Loaded { verified, maps })?;
                Ok(None)
            }
            Err(refusal) => Ok(Some(refusal)),
        }
    }

    /// The verdict on a program, which is added.
    fn verdict(&mut self, kind: &str, head: &str, text: &str) -> Result<String, Fail> {
        let numbers = numbers_in(self.alloc, head)?;
        let Some((context_len, maps)) = numbers.split_first() else {
            return Err(Fail::from("no context"));
        };
        let program = program_of(self.alloc, kind, text)?;
        match self.add(program, maps, *context_len)? {
            None => Ok(String::from_str(self.alloc, "accepted")?),
            Some(refusal) => Ok(format!(in self.alloc;
                "refused {} at {:?}",
                refusal.code(),
                refusal.slot()
            )?),
        }
    }

    /// Adds the program of a line, whose verdict is to be the line's.
    fn take(&mut self, kind: &str, line: &str) -> Result<(), Fail> {
        let (line, wanted) = line.split_once(" = ").unwrap_or((line, "accepted"));
        let (head, text) = line.split_once(": ").unwrap_or(("", line));
        let found = self.verdict(kind, head, text)?;
        if found.as_str() != wanted {
            return Err(Fail::from(found));
        }
        if kind == "later" {
            if let Some(program) = self.loaded.pop() {
                self.later.push(program)?;
            }
        }
        Ok(())
    }

    /// The reference model with these maps and programs, and where all are accepted the world beside it.
    pub fn pair(self) -> Result<Pair, Fail> {
        let Setup {
            alloc,
            shapes,
            plain,
            loaded,
            later,
        } = self;
        let worlds = if loaded.len() + later.len() == plain.len() {
            worlds_of(alloc, &shapes, loaded)?
        } else {
            Vec::new(alloc)
        };
        let model = Machine::new(alloc, &shapes, plain)?;
        Ok(Pair {
            alloc,
            model,
            worlds,
            later,
        })
    }
}

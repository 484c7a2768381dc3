//! An open program.

use bpf_model::MapShape;
use classic::ClassicProgram;
use classic_runs::PacketFilter;
use shared_runs::alone::has_no_maps;
use shared_runs::stores_sub_words;
use std::marker::Model;
use verifier::Verified;

/// A verified program, and the classic program that it translates, where it was opened from one.
#[derive(Drop)]
pub struct HostProgram {
    verified: Verified,
    classic: Option<ClassicProgram>,
    /// That classic program ready to be run on packets, where it is one of packets.
    filter: Option<PacketFilter>,
    /// Whether it names no map.
    alone: bool,
    /// Whether it stores less than a word to an element, or changes a map.
    sub_words: bool,
}

impl Model for HostProgram {
    ghost use Rattle.std.specs.Prelude.{◌≡◌, Some, Decides, IfSome};
    ghost use Rattle.classic_program.specs.WellFormed.{checked};
    ghost use Rattle.classic_program.specs.declared.data.Data.TheVariants.{Packet};
    ghost use Rattle.bpf_model.specs.Exit.{HasNoMaps};
    ghost use Rattle.shared_runs.specs.Words.{StoresSubWords};
    ghost use Rattle.host_programs.specs.Opened.{OpenProgram, IsTranslationOf};

    ghost Value = { OpenProgram };

    ghost view = { λ p. record { checked = p.verified; classic = p.classic } };

    ghost invariant = { λ p. Decides p.alone (HasNoMaps p.verified.program)
        × Decides p.sub_words (StoresSubWords p.verified) × IsTranslationOf p.verified p.classic
        × IfSome p.filter (λ f. p.classic ≡ Some (checked Packet f)) };
}

impl HostProgram {
    ghost use Rattle.std.specs.Prelude.{◌≡◌, ◌≤◌, Decides, Some, None, IfSome};
    ghost use Rattle.classic_program.specs.WellFormed.{checked};
    ghost use Rattle.classic_program.specs.declared.data.Data.TheVariants.{Packet};
    ghost use Rattle.bpf_model.specs.declared.limits.TheConstants.{CTX_BYTES};
    ghost use Rattle.bpf_model.specs.Exit.{HasNoMaps};
    ghost use Rattle.shared_runs.specs.Words.{StoresSubWords};
    ghost use Rattle.host_programs.specs.Opened.{IsSafe, IsTranslationOf, Translates};

    /// A program that was verified.
    pub fn of_verified(verified: Verified) -> HostProgram
        ensures checked { result.checked ≡ verified }
        ensures classic { result.classic ≡ None }
    {
        let alone = has_no_maps(&verified);
        let sub_words = stores_sub_words(&verified);
        HostProgram {
            verified,
            classic: None,
            filter: None,
            alone,
            sub_words,
        }
    }

    /// A verified translation of a classic program, which runs on packets as the filter, where there is one.
    pub(crate) fn of_translation(
        verified: Verified,
        classic: ClassicProgram,
        filter: Option<PacketFilter>,
    ) -> HostProgram
        requires translates { Translates verified classic }
        requires same { IfSome filter (λ f. classic ≡ checked Packet f) }
        ensures checked { result.checked ≡ verified }
        ensures classic { result.classic ≡ Some classic }
    {
        let alone = has_no_maps(&verified);
        let sub_words = stores_sub_words(&verified);
        HostProgram {
            verified,
            classic: Some(classic),
            filter,
            alone,
            sub_words,
        }
    }

    /// The verified program.
    pub fn verified(&self) -> &Verified
        ensures { result.now ≡ self.now.checked }
    {
        &self.verified
    }

    /// How long in bytes a context of the program is.
    pub fn ctx_len(&self) -> usize
        ensures value { result ≡ self.now.checked.ctx_len }
        ensures bound { result ≤ CTX_BYTES }
    {
        self.verified.ctx_len()
    }

    /// The shapes of the maps for which it was verified.
    pub fn shapes(&self) -> &[MapShape]
        ensures { result.now ≡ self.now.checked.shapes }
    {
        self.verified.shapes()
    }

    /// Whether the program names no map, so that it runs by itself.
    pub fn names_no_map(&self) -> bool
        ensures { Decides result (HasNoMaps self.now.checked.program) }
    {
        self.alone
    }

    /// Whether the program stores less than a word to an element, or calls a helper that changes a map. A table without a lock
    /// serves no such program (`shared_runs`).
    pub fn stores_sub_words(&self) -> bool
        ensures { Decides result (StoresSubWords self.now.checked) }
    {
        self.sub_words
    }

    /// Its classic program, ready to be run on packets, where it is one of packets.
    pub(crate) fn filter(&self) -> Option<&PacketFilter>
        ensures { IfSome result (λ f. self.now.classic ≡ Some (checked Packet f.now)) }
    {
        self.filter.as_ref()
    }

    /// A law: an open program is verified, and is the translation of its classic program, where it has one.
    pub fn is_open(&self)
        ensures verified { IsSafe self.now.checked }
        ensures translation { IsTranslationOf self.now.checked self.now.classic }
    {
        let _program = self.verified.program();
    }
}

//! Laws of plain texts.
ghost use Rattle.std.specs.Prelude.{ℕ, ◌≡◌, List, Option, Ok, Some, true, length, map, slice_get};
ghost use Rattle.bpf_model.specs.declared.insn.Insn.{Insn};
ghost use Rattle.disasm.specs.Text.{line_of};
ghost use Rattle.asm.specs.Faults.{statements_in};
ghost use Rattle.asm_source.specs.Fixed.{IsFixed, kept_text};
ghost use Rattle.asm_source.specs.Labels.{HasLabel, JumpsByName, LeadsToLine, StandsAtLine, has_instruction};
ghost use Rattle.asm_source.specs.Plain.{plain};
ghost use Rattle.asm_source.specs.Tokens.{lines_of};

/// A law: a text of the fixed language stays as it is, but that its comments are left out.
pub fn fixed_stays()
    ensures { (maps : List ℕ → Option ℕ) (text : List ℕ) → IsFixed text →
        plain maps text ≡ Ok (kept_text text) }
{}

/// A law: a plain text has as many lines as its source.
pub fn lines_are_kept()
    ensures { (maps : List ℕ → Option ℕ) (source text : List ℕ) → plain maps source ≡ Ok text →
        length (lines_of text) ≡ length (lines_of source) }
{}

/// A law: a label leads to its instruction. Where the plain text of a source has a program's lines, a jump by the name of a label
/// leads to the first instruction that stands in the label's line or below it. Places are counted in slots.
pub fn label_leads()
    ensures { (maps : List ℕ → Option ℕ) (source text : List ℕ) (program : List Insn) →
        plain maps source ≡ Ok text → statements_in text ≡ map line_of program →
        (from to : ℕ) (name : List ℕ) →
        JumpsByName source from name → HasLabel source to name → LeadsToLine source program from to }
{}

/// A law: where the plain text of a source has a program's lines, the instruction of each line begins behind the slots of
/// those above.
pub fn line_has_place()
    ensures { (maps : List ℕ → Option ℕ) (source text : List ℕ) (program : List Insn) →
        plain maps source ≡ Ok text → statements_in text ≡ map line_of program →
        (n : ℕ) (line : List ℕ) → slice_get (lines_of source) n ≡ Some line →
        has_instruction line ≡ true → StandsAtLine source text program n }
{}

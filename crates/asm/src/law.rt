//! What the definitions say of every text.
ghost use Rattle.std.specs.Prelude.{◌≡◌, ◌≢◌, ℕ, List};
ghost use Rattle.asm.specs.declared.fault.AsmFault.{AsmFault};
ghost use Rattle.asm.specs.Faults.{IsAsmFault};

/// No text has two faults, but that memory ran out may be said of any.
pub fn one_fault()
    ensures { (text : List ℕ) (f g : AsmFault) →
        f ≢ AsmFault.Memory → g ≢ AsmFault.Memory →
        IsAsmFault text f → IsAsmFault text g → f ≡ g }
{}

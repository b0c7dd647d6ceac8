//! Worked values of the definitions.
ghost use Rattle.std.specs.Prelude.{◌≡◌, ◌∷◌, [], ◌++◌, codes, Some, None};
ghost use Rattle.asm_lines.specs.Lexical.{bare_line};
ghost use Rattle.mips_asm.specs.Program.{asm_fault, data_words, text_words};

/// Lines lose their comments and the blanks at their ends, and only the word of an instruction is left.
pub fn lines_have_words()
    ensures bare { bare_line (codes "  jr $31 # back" ++ 9 ∷ []) ≡ codes "jr $31" }
    ensures three { text_words (codes "addu $1,$2,$3") ≡ 0x00430821 ∷ [] }
    ensures by_register { text_words (codes "sllv  $1, $2 ,$3") ≡ 0x00620804 ∷ [] }
    ensures shifted { text_words (codes "sra $31,$30,31") ≡ 0x001EFFC3 ∷ [] }
    ensures jump { text_words (codes "j 0x00400010") ≡ 0x08100004 ∷ [] }
    ensures link { text_words (codes "jalr $31,$2") ≡ 0x0040F809 ∷ [] }
    ensures code { text_words (codes "break 1048575") ≡ 0x03FFFFCD ∷ [] }
    ensures back { text_words (codes "bltz $4,4194300") ≡ 0x0480FFFE ∷ [] }
    ensures signed { text_words (codes "addi $4,$5,-1") ≡ 0x20A4FFFF ∷ [] }
    ensures memory { text_words (codes "lw $8,-32768($29)") ≡ 0x8FA88000 ∷ [] }
    ensures word { text_words (codes ".word -2147483648") ≡ 0x80000000 ∷ [] }
{}

/// Labels, both segments, and the halves of an address.
pub fn texts_have_programs()
    ensures loops { text_words (codes "top:" ++ 10 ∷ codes "bne $1,$0,top" ++ 10 ∷ codes "jal end"
        ++ 10 ∷ codes "end:") ≡ 0x1420FFFF ∷ 0x0C100002 ∷ [] }
    ensures halves { text_words (codes "lui $8,%hi(x)" ++ 10 ∷ codes "lbu $8,%lo(x)($8)"
        ++ 10 ∷ codes ".data" ++ 10 ∷ codes ".space 4" ++ 10 ∷ codes "x:")
        ≡ 0x3C081000 ∷ 0x91080004 ∷ [] }
    ensures zeros { data_words (codes ".data" ++ 10 ∷ codes ".space 8" ++ 10 ∷ codes ".text"
        ++ 10 ∷ codes "syscall 0" ++ 10 ∷ codes ".data" ++ 10 ∷ codes ".word 0xfF")
        ≡ 0 ∷ 0 ∷ 255 ∷ [] }
    ensures nothing { text_words [] ≡ [] }
{}

/// The kinds of faults, and where the first one is.
pub fn operands_have_kinds()
    ensures none { asm_fault (codes "a:" ++ 10 ∷ codes "j a") ≡ None }
    ensures unknown { asm_fault (10 ∷ codes "nop") ≡ Some (2, 1) }
    ensures no_label { asm_fault (codes "a :") ≡ Some (1, 1) }
    ensures few { asm_fault (codes "addiu $2,$0") ≡ Some (1, 2) }
    ensures no_register { asm_fault (codes "jr $32") ≡ Some (1, 2) }
    ensures leading_zero { asm_fault (codes "jr $03") ≡ Some (1, 2) }
    ensures lowest { asm_fault (codes "lw $x,40000000($1)") ≡ Some (1, 2) }
    ensures range { asm_fault (codes "ori $1,$1,-1") ≡ Some (1, 3) }
    ensures reach { asm_fault (codes "beq $1,$1,0x00420000") ≡ None }
    ensures out_of_reach { asm_fault (codes "beq $1,$1,0x00420004") ≡ Some (1, 3) }
    ensures in_data { asm_fault (codes ".data" ++ 10 ∷ codes "jr $31") ≡ Some (2, 3) }
    ensures two_words { asm_fault (codes ".word 1,2") ≡ Some (1, 2) }
    ensures no_word { asm_fault (codes ".word") ≡ Some (1, 2) }
    ensures half_a_word { asm_fault (codes ".space 2") ≡ Some (1, 3) }
    ensures twice { asm_fault (codes "a:" ++ 10 ∷ codes "b:" ++ 10 ∷ codes "a:") ≡ Some (3, 4) }
    ensures nowhere { asm_fault (codes "lui $1,%hi(a)") ≡ Some (1, 5) }
{}

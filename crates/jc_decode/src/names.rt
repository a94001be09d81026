ghost use Rattle.std.specs.Prelude.{◌≡◌, ◌<◌, ◌↔◌, ℕ, Some, IfSome, IsTrue};
ghost use Rattle.jc_decode.specs.Names.{name, width, HasName, NamesAreApart};

/// The name of the instruction of an opcode (chapter 7 of the specification), and the empty text where the
/// standard has none.
pub fn opcode_name(op: u8) -> &'static str
    ensures { result.now ≡ name op }
{
    if op < 185 {
        let start = 16 * op as usize;
        &NAMES[start..start + width(op)]
    } else {
        ""
    }
}

/// How many columns the name of an opcode takes.
fn width(op: u8) -> usize
    requires { op < 185 }
    ensures { result ≡ width op }
{
    WIDTHS[op as usize] as usize
}

/// The opcode of the instruction with a name.
pub fn opcode_named(word: &[u8]) -> Option<u8>
    ensures found { IfSome result (HasName word.now) }
    ensures given { (op : ℕ) → HasName word.now op → result ≡ Some op }
{
    'opcodes: for op in 0..185u8 {
        if has_name(op, word) {
            return Some(op);
        }
    }
    None
}

fn has_name(op: u8, word: &[u8]) -> bool
    ensures { IsTrue result ↔ (word.now ≡ name op) }
{
    word == opcode_name(op).as_bytes()
}

/// No two opcodes have one name.
pub fn names_are_apart()
    ensures { NamesAreApart }
{}

/// The name of each opcode, in sixteen columns.
const NAMES: &str = "\
nop             aconst_null     sconst_m1       sconst_0        sconst_1        \
sconst_2        sconst_3        sconst_4        sconst_5        iconst_m1       \
iconst_0        iconst_1        iconst_2        iconst_3        iconst_4        \
iconst_5        bspush          sspush          bipush          sipush          \
iipush          aload           sload           iload           aload_0         \
aload_1         aload_2         aload_3         sload_0         sload_1         \
sload_2         sload_3         iload_0         iload_1         iload_2         \
iload_3         aaload          baload          saload          iaload          \
astore          sstore          istore          astore_0        astore_1        \
astore_2        astore_3        sstore_0        sstore_1        sstore_2        \
sstore_3        istore_0        istore_1        istore_2        istore_3        \
aastore         bastore         sastore         iastore         pop             \
pop2            dup             dup2            dup_x           swap_x          \
sadd            iadd            ssub            isub            smul            \
imul            sdiv            idiv            srem            irem            \
sneg            ineg            sshl            ishl            sshr            \
ishr            sushr           iushr           sand            iand            \
sor             ior             sxor            ixor            sinc            \
iinc            s2b             s2i             i2b             i2s             \
icmp            ifeq            ifne            iflt            ifge            \
ifgt            ifle            ifnull          ifnonnull       if_acmpeq       \
if_acmpne       if_scmpeq       if_scmpne       if_scmplt       if_scmpge       \
if_scmpgt       if_scmple       goto            jsr             ret             \
stableswitch    itableswitch    slookupswitch   ilookupswitch   areturn         \
sreturn         ireturn         return          getstatic_a     getstatic_b     \
getstatic_s     getstatic_i     putstatic_a     putstatic_b     putstatic_s     \
putstatic_i     getfield_a      getfield_b      getfield_s      getfield_i      \
putfield_a      putfield_b      putfield_s      putfield_i      invokevirtual   \
invokespecial   invokestatic    invokeinterface new             newarray        \
anewarray       arraylength     athrow          checkcast       instanceof      \
sinc_w          iinc_w          ifeq_w          ifne_w          iflt_w          \
ifge_w          ifgt_w          ifle_w          ifnull_w        ifnonnull_w     \
if_acmpeq_w     if_acmpne_w     if_scmpeq_w     if_scmpne_w     if_scmplt_w     \
if_scmpge_w     if_scmpgt_w     if_scmple_w     goto_w          getfield_a_w    \
getfield_b_w    getfield_s_w    getfield_i_w    getfield_a_this getfield_b_this \
getfield_s_this getfield_i_this putfield_a_w    putfield_b_w    putfield_s_w    \
putfield_i_w    putfield_a_this putfield_b_this putfield_s_this putfield_i_this \
";

/// How many of the columns it takes.
static WIDTHS: [u8; 185] = [
    3, 11, 9, 8, 8, 8, 8, 8, 8, 9, 8, 8, 8, 8, 8, 8, 6, 6, 6, 6, 6, 5, 5, 5, 7, 7, 7, 7, 7, 7, 7,
    7, 7, 7, 7, 7, 6, 6, 6, 6, 6, 6, 6, 8, 8, 8, 8, 8, 8, 8, 8, 8, 8, 8, 8, 7, 7, 7, 7, 3, 4, 3, 4,
    5, 6, 4, 4, 4, 4, 4, 4, 4, 4, 4, 4, 4, 4, 4, 4, 4, 4, 5, 5, 4, 4, 3, 3, 4, 4, 4, 4, 3, 3, 3, 3,
    4, 4, 4, 4, 4, 4, 4, 6, 9, 9, 9, 9, 9, 9, 9, 9, 9, 4, 3, 3, 12, 12, 13, 13, 7, 7, 7, 6, 11, 11,
    11, 11, 11, 11, 11, 11, 10, 10, 10, 10, 10, 10, 10, 10, 13, 13, 12, 15, 3, 8, 9, 11, 6, 9, 10,
    6, 6, 6, 6, 6, 6, 6, 6, 8, 11, 11, 11, 11, 11, 11, 11, 11, 11, 6, 12, 12, 12, 12, 15, 15, 15,
    15, 12, 12, 12, 12, 15, 15, 15, 15,
];

//! Theorems about encodings; their functions run nothing.

ghost use Rattle.std.specs.Prelude.{◌≡◌, ◌<◌, ◌^◌, ℕ, suc, Bool, Option, Some};
ghost use Rattle.std.specs.Prelude.{List, length, ◌++◌, take, drop};
ghost use Rattle.term_table.specs.Tree.{Tree, Const};
ghost use Rattle.term_table.specs.Subst.{Base, hsub};
ghost use Rattle.lf_signature.specs.Known.{IsKnownSignature, HasOp};
ghost use Rattle.formula_tree.specs.Operators.{UsesExp, UsesMem, Uses};
ghost use Rattle.lf_signature.specs.Terms.{exp, mem, form};
ghost use Rattle.lf_signature.specs.Typing.{Checks};
ghost use Rattle.formula_tree.specs.Formulas.{Exp, MemExp, Form};
ghost use Rattle.formula_tree.specs.Scope.{VarSort, sort_at, part_sort};
ghost use Rattle.formula_tree.specs.Scope.{IsOverExp, IsOverMem, IsOver, IsOverPart, IsWithin};
ghost use Rattle.formula_tree.specs.Sizes.{form_height};
ghost use Rattle.formula_tree.specs.Substitution.{Substitution, shift_substitution};
ghost use Rattle.formula_tree.specs.Substitution.{subst_exp, subst_mem, subst_form};
ghost use Rattle.formula_tree.specs.Variables.{Part, subst_var_exp, subst_var_mem, subst_var};
ghost use Rattle.lf_encode.specs.declared.contexts.Sort.{Sort};
ghost use Rattle.lf_terms.specs.Encoding.{exp_encoding, mem_encoding, form_encoding};
ghost use Rattle.lf_terms.specs.Encoding.{part_encoding, part_family};
ghost use Rattle.lf_encode.specs.Contexts.{machine_count, sorts_of, bound_sorts, without_var};
ghost use Rattle.lf_encode.specs.Contexts.{IsExpIn, IsMemIn, IsFormIn, IsPartIn};
ghost use Rattle.lf_encode.specs.Contexts.{sort_types, names_in, part_encoding_in};
ghost use Rattle.lf_encode.specs.Contexts.{exp_encoding_in, mem_encoding_in, encoding_in};
ghost use Rattle.lf_encode.specs.Contexts.{EncodesForm, EncodesExp, EncodesMem, machine_names};
ghost use Rattle.lf_encode.specs.PutTree.{machine_terms_of, put_tree};

/// States that the encoding is adequate over a signature of word arithmetic, in a context of word
/// and memory variables, whose nearest is last. A term of type form, exp or mem is the encoding of
/// exactly one formula, expression or memory over the context. That one has the signature's
/// operators alone and no register 31. Conversely, take a formula, expression or memory of these
/// operators over the context, also with register 31. Its encoding has the type if its height and
/// the context's length are below 2^31.
pub fn adequacy_laws()
    ensures forms { (sig : Const → Option Tree) → IsKnownSignature sig →
        (ctx : List Sort) (t : Tree) → Checks sig (sort_types ctx) t form →
        (F : Form) × EncodesForm ctx F t × Uses (HasOp sig) F }
    ensures exps { (sig : Const → Option Tree) → IsKnownSignature sig →
        (ctx : List Sort) (t : Tree) → Checks sig (sort_types ctx) t exp →
        (e : Exp) × EncodesExp ctx e t × UsesExp (HasOp sig) e }
    ensures mems { (sig : Const → Option Tree) → IsKnownSignature sig →
        (ctx : List Sort) (t : Tree) → Checks sig (sort_types ctx) t mem →
        (m : MemExp) × EncodesMem ctx m t × UsesMem (HasOp sig) m }
    ensures one_form { (ctx : List Sort) (t : Tree) (F G : Form) →
        EncodesForm ctx F t → EncodesForm ctx G t → F ≡ G }
    ensures one_exp { (ctx : List Sort) (t : Tree) (d e : Exp) →
        EncodesExp ctx d t → EncodesExp ctx e t → d ≡ e }
    ensures one_mem { (ctx : List Sort) (t : Tree) (m l : MemExp) →
        EncodesMem ctx m t → EncodesMem ctx l t → m ≡ l }
    ensures form_typed { (sig : Const → Option Tree) → IsKnownSignature sig →
        (ctx : List Sort) (F : Form) → IsFormIn ctx 32 F → Uses (HasOp sig) F →
        form_height F < 2 ^ 31 → length ctx < 2 ^ 31 →
        Checks sig (sort_types ctx) (encoding_in ctx F) form }
    ensures exp_typed { (sig : Const → Option Tree) → IsKnownSignature sig →
        (ctx : List Sort) (e : Exp) → IsExpIn ctx 32 e → UsesExp (HasOp sig) e →
        length ctx < 2 ^ 31 →
        Checks sig (sort_types ctx) (exp_encoding_in ctx e) exp }
    ensures mem_typed { (sig : Const → Option Tree) → IsKnownSignature sig →
        (ctx : List Sort) (m : MemExp) → IsMemIn ctx 32 m → UsesMem (HasOp sig) m →
        length ctx < 2 ^ 31 →
        Checks sig (sort_types ctx) (mem_encoding_in ctx m) mem }
{}

/// States that substitution commutes with encoding. If an expression or a memory over variables is
/// substituted for a variable of its sort, the encoding of the result is the result of hereditary
/// substitution on the encodings. This holds for expressions and memories always, and for formulas
/// if the height, and the length of the context that the substituted part is over, are below 2^31.
pub fn substitution_on_encodings()
    ensures exps { (e : Exp) (G : List VarSort) (x : ℕ) (p : Part) →
        IsOverExp 0 e G → sort_at G x ≡ Some (part_sort p) →
        hsub (Base (part_family p)) (part_encoding p) x (exp_encoding e)
        ≡ Some (exp_encoding (subst_var_exp e x p)) }
    ensures mems { (m : MemExp) (G : List VarSort) (x : ℕ) (p : Part) →
        IsOverMem 0 m G → sort_at G x ≡ Some (part_sort p) →
        hsub (Base (part_family p)) (part_encoding p) x (mem_encoding m)
        ≡ Some (mem_encoding (subst_var_mem m x p)) }
    ensures forms { (F : Form) (G H : List VarSort) (x : ℕ) (p : Part) →
        IsOver 0 F G → sort_at G x ≡ Some (part_sort p) → IsOverPart 0 p H →
        form_height F < 2 ^ 31 → length H < 2 ^ 31 →
        hsub (Base (part_family p)) (part_encoding p) x (form_encoding F)
        ≡ Some (form_encoding (subst_var F x p)) }
{}

/// States that hereditary substitution on encodings over a context, which may have the machine's
/// variables, is substitution of an expression or a memory for one variable. This holds for
/// expressions and memories always, and for formulas if the height and the contexts' lengths are
/// below 2^31. For any variable, also one of the machine's, the substituted part is over variables
/// alone; the result is the encoding of what substitution gives after variables were put for
/// registers and m, and the other variables are numbered as in the context without that one. For a
/// bound variable, one that isn't the machine's, the substituted part may name registers and m
/// itself, and the result is the encoding over the context without the variable.
pub fn substitution_in_contexts()
    ensures exps_in { (ctx : List Sort) (e : Exp) (x : ℕ) (p : Part) →
        IsExpIn ctx 32 e → sort_at (sorts_of ctx) x ≡ Some (part_sort p) →
        hsub (Base (part_family p)) (part_encoding p) x (exp_encoding_in ctx e)
        ≡ Some (exp_encoding (subst_var_exp (subst_exp e (names_in ctx)) x p)) }
    ensures mems_in { (ctx : List Sort) (m : MemExp) (x : ℕ) (p : Part) →
        IsMemIn ctx 32 m → sort_at (sorts_of ctx) x ≡ Some (part_sort p) →
        hsub (Base (part_family p)) (part_encoding p) x (mem_encoding_in ctx m)
        ≡ Some (mem_encoding (subst_var_mem (subst_mem m (names_in ctx)) x p)) }
    ensures forms_in { (ctx : List Sort) (F : Form) (H : List VarSort) (x : ℕ) (p : Part) →
        IsFormIn ctx 32 F → sort_at (sorts_of ctx) x ≡ Some (part_sort p) → IsOverPart 0 p H →
        form_height F < 2 ^ 31 → length H < 2 ^ 31 →
        hsub (Base (part_family p)) (part_encoding p) x (encoding_in ctx F)
        ≡ Some (form_encoding (subst_var (subst_form F (names_in ctx)) x p)) }
    ensures exps_bound { (ctx : List Sort) (e : Exp) (x : ℕ) (p : Part) →
        let rest : List Sort = without_var x ctx in
        IsExpIn ctx 32 e → sort_at (bound_sorts ctx) x ≡ Some (part_sort p) →
        hsub (Base (part_family p)) (part_encoding_in rest p) x (exp_encoding_in ctx e)
        ≡ Some (exp_encoding_in rest (subst_var_exp e x p)) }
    ensures mems_bound { (ctx : List Sort) (m : MemExp) (x : ℕ) (p : Part) →
        let rest : List Sort = without_var x ctx in
        IsMemIn ctx 32 m → sort_at (bound_sorts ctx) x ≡ Some (part_sort p) →
        hsub (Base (part_family p)) (part_encoding_in rest p) x (mem_encoding_in ctx m)
        ≡ Some (mem_encoding_in rest (subst_var_mem m x p)) }
    ensures forms_bound { (ctx : List Sort) (F : Form) (x : ℕ) (p : Part) →
        let rest : List Sort = without_var x ctx in
        IsFormIn ctx 32 F → sort_at (bound_sorts ctx) x ≡ Some (part_sort p) →
        IsPartIn rest 32 p → form_height F < 2 ^ 31 → length ctx < 2 ^ 31 →
        hsub (Base (part_family p)) (part_encoding_in rest p) x (encoding_in ctx F)
        ≡ Some (encoding_in rest (subst_var F x p)) }
{}

/// States that the sorts of a context without one variable are the context's sorts without that
/// variable's. The result of substituting for a bound variable is over the context without it if
/// the substituted part is, and both contexts have as many of the machine's variables.
pub fn scope_laws()
    ensures sorts { (ctx : List Sort) (x : ℕ) →
        sorts_of (without_var x ctx) ≡ take x (sorts_of ctx) ++ drop (suc x) (sorts_of ctx) }
    ensures exps { (ctx : List Sort) (r : ℕ) (e : Exp) (x : ℕ) (p : Part) →
        let rest : List Sort = without_var x ctx in
        IsExpIn ctx r e → sort_at (bound_sorts ctx) x ≡ Some (part_sort p) →
        IsPartIn rest r p → machine_count rest ≡ machine_count ctx →
        IsExpIn rest r (subst_var_exp e x p) }
    ensures mems { (ctx : List Sort) (r : ℕ) (m : MemExp) (x : ℕ) (p : Part) →
        let rest : List Sort = without_var x ctx in
        IsMemIn ctx r m → sort_at (bound_sorts ctx) x ≡ Some (part_sort p) →
        IsPartIn rest r p → machine_count rest ≡ machine_count ctx →
        IsMemIn rest r (subst_var_mem m x p) }
    ensures forms { (ctx : List Sort) (r : ℕ) (F : Form) (x : ℕ) (p : Part) →
        let rest : List Sort = without_var x ctx in
        IsFormIn ctx r F → sort_at (bound_sorts ctx) x ≡ Some (part_sort p) →
        IsPartIn rest r p → machine_count rest ≡ machine_count ctx →
        IsFormIn rest r (subst_var F x p) }
{}

/// States that substitution for the machine's variables commutes with encoding. Substituting terms
/// for them in the encoding of a formula, where `B` are the nearer variables, gives the encoding of
/// another formula: the terms' formulas are substituted for registers, m and the remaining steps.
pub fn put_laws()
    ensures { (left : Bool) (r : ℕ) (F : Form) (B : List VarSort) (s : Substitution) →
        length s.regs ≡ 31 → IsWithin left r F B →
        put_tree (machine_terms_of s) (length B)
        (form_encoding (subst_form F (shift_substitution (length B) machine_names)))
        ≡ form_encoding (subst_form F (shift_substitution (length B) s)) }
{}

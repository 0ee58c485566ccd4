//! The functions of the library (CSTR 149, appendix on the run time library).

ghost use Rattle.std.specs.Prelude.{◌≡◌};
ghost use Rattle.c_tree.specs.Builtins as tree;
ghost use Rattle.expression_linker.specs.StringsSeen.{texts};

/// Their names, in the order of their numbers.
static BUILTIN_NAMES: [&[u8]; 44] = [
    b"s_copy", b"s_cmp", b"s_cat", b"i_indx", b"pow_ii", b"i_sign", b"i_dim", b"l_ge", b"l_gt",
    b"l_le", b"l_lt", b"s_stop", b"s_wsfe", b"s_rsfe", b"s_wsle", b"s_rsle", b"s_wsfi", b"s_rsfi",
    b"s_wsli", b"s_rsli", b"do_fio", b"do_lio", b"e_wsfe", b"e_rsfe", b"e_wsle", b"e_rsle",
    b"e_wsfi", b"e_rsfi", b"e_wsli", b"e_rsli", b"f_open", b"f_clos", b"f_back", b"f_rew",
    b"f_end", b"i_or", b"i_and", b"i_eor", b"i_not", b"i_shft", b"b_test", b"b_set", b"b_clr",
    b"s_rnge",
];

/// The names of the functions of the library, in the order of their numbers.
pub fn builtin_names() -> &'static [&'static [u8]]
    ensures { texts result.now ≡ tree.builtin_names }
{
    &BUILTIN_NAMES
}

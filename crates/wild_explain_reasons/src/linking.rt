//! What keeps modules from finding each other: libraries without names, local symbols, a dynamic linker without its path.

use crate::items::{Item, push_item};
use crate::names::push_symbol;
use crate::text::Text;
use wild_needs::is_undefined_entry;
use wild_types::{File, Layout, Role, is_there};

/// Local binding, the high bits of `st_info` (gABI, "Symbol Table").
const STB_LOCAL: u8 = 0;

/// Adds a library without a name, or the name of a library at a file that is none.
pub(crate) fn push_library(out: &mut Text, layout: &Layout, word: &str, item: Item, file: &File) {
    let is_named = !file.lib_name.as_slice().is_empty();
    if !layout.kind.needs_dynamic() || file.role.is_library() == is_named {
        return;
    }
    write!(out, "{word}: ");
    push_item(out, item);
    if is_named {
        out.push_str(
            "/lib_name is given, and the file's role is not `dynamic`: no DT_NEEDED names the library\n",
        );
    } else {
        out.push_str(
            "/lib_name is not given, and the file's role is `dynamic`: its DT_NEEDED names no library\n",
        );
    }
}

/// Adds a path of the dynamic linker without its part, or the part without a path.
pub(crate) fn push_path(out: &mut Text, layout: &Layout, word: &str) {
    let is_given = !layout.interp.as_slice().is_empty();
    let is_held = is_there(Role::Interp, layout.parts.as_slice());
    if is_held && !is_given {
        writeln!(
            out,
            "{word}: a part has the role interp, and /interp is not given: the part is empty, and names no dynamic linker"
        );
    }
    if is_given && !is_held {
        writeln!(
            out,
            "{word}: /interp is given, and no part has the role interp: the path stands nowhere"
        );
    }
}

/// Adds the first local symbol in `dynsyms`, and how many of them there are.
pub(crate) fn push_listed(out: &mut Text, layout: &Layout) {
    let mut first: Option<(usize, usize)> = None;
    let mut count: usize = 0;
    for (i, listed) in layout.dynsyms.as_slice().iter().enumerate() {
        let number = listed.symbol.0;
        if let Some(symbol) = layout.symbols.as_slice().get(number)
            && symbol.info / 16 == STB_LOCAL
        {
            first = Some(first.unwrap_or((i, number)));
            count = count.saturating_add(1);
        }
    }
    if let Some((i, number)) = first {
        write!(
            out,
            "advice: /symbols/{number}/info has local binding, and /dynsyms/{i} lists "
        );
        push_symbol(out, layout, number);
        writeln!(
            out,
            ": no other module finds it (16 and the type is a global one); {count} such in `dynsyms`"
        );
    }
}

/// Adds the first local symbol of a file that the dynamic symbol table has as an undefined one.
pub(crate) fn push_local(out: &mut Text, layout: &Layout, file: &File) {
    for (i, symbol) in layout.symbols_of(file).iter().enumerate() {
        if symbol.info / 16 == STB_LOCAL && is_undefined_entry(file.role, symbol) {
            let number = file.first_symbol.0.saturating_add(i);
            write!(
                out,
                "advice: /symbols/{number}/info has local binding, and "
            );
            push_symbol(out, layout, number);
            out.push_str(
                " is undefined in the dynamic symbol table: no other module's definition is looked for (16 and the type is a global one)\n",
            );
            return;
        }
    }
}

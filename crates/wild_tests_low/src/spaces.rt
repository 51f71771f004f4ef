//! Images that are bound to each other: a program and two libraries that GNU as and ld 2.40 made of
//!
//! ```asm
//! # main: -z now --hash-style=sysv
//! .weak w
//! _start: call f@PLT
//!         call g@PLT
//!         mov v(%rip),%eax
//!         mov w@GOTPCREL(%rip),%rax
//!         mov p@GOTPCREL(%rip),%rax
//!         mov %fs:0,%rax
//!         add t@gottpoff(%rip),%rax
//! # b: -shared -z now --hash-style=sysv -soname b, and needs a; p is protected
//! g:      call f@PLT
//!         call i@PLT
//!         mov p@GOTPCREL(%rip),%rax
//!         mov v@GOTPCREL(%rip),%rax
//!         lea t@tlsgd(%rip),%rdi
//!         ret
//! p:      ret
//!         .data
//!         .quad p
//! # a: -shared -z now --hash-style=gnu -soname a; i is an IFUNC
//! f:      ret
//! p:      ret
//! i:      lea f0(%rip),%rax
//!         ret
//!         .data
//! v:      .quad f, 0x77
//!         .section .tdata,"awT"
//!         .quad 0x55
//! t:      .quad 0x66
//! ```
//!
//! Each is linked with `-z noseparate-code -z norelro --build-id=none -s`. The program needs b and a. Only a has its section
//! headers. The binds are those that ld.so of glibc 2.36 prints with `LD_DEBUG=bindings`. It prints none for `w`, nor for
//! symbols without a relocation.

use std::alloc::Global;
use std::test::Fail;
use wild_hashes::{ImageFault, find_image_tables};
use wild_imports::{find_definition, needed_offsets, symbol_count, thread_start};
use wild_loader::{Deed, Effect, LoadFault, Memory, Value, reaches, step_x86_64};
use wild_space::{BindFault, Bound, Definition, NamedImage, bind_images};
use wild_words::Bytes;

/// The program.
#[rattlefmt::skip]
const MAIN: &[u8] =
    b"\x7fELF\x02\x01\x01\0\0\0\0\0\0\0\0\0\x02\0>\0\x01\0\0\00\x03@\0\0\0\0\0@\0\0\0\0\0\0\0\0\0\0\0\0\0\0\0\0\0\0\
    \0@\08\0\x05\0@\0\0\0\0\0\x06\0\0\0\x04\0\0\0@\0\0\0\0\0\0\0@\0@\0\0\0\0\0@\0@\0\0\0\0\0\x18\x01\0\0\0\0\0\0\
    \x18\x01\0\0\0\0\0\0\x08\0\0\0\0\0\0\0\x03\0\0\0\x04\0\0\0X\x01\0\0\0\0\0\0X\x01@\0\0\0\0\0X\x01@\0\0\0\0\0\
    \x1c\0\0\0\0\0\0\0\x1c\0\0\0\0\0\0\0\x01\0\0\0\0\0\0\0\x01\0\0\0\x05\0\0\0\0\0\0\0\0\0\0\0\0\0@\0\0\0\0\0\0\0@\
    \0\0\0\0\0g\x03\0\0\0\0\0\0g\x03\0\0\0\0\0\0\0\x10\0\0\0\0\0\0\x01\0\0\0\x06\0\0\0h\x03\0\0\0\0\0\0h\x13@\0\0\
    \0\0\0h\x13@\0\0\0\0\0\xc0\x01\0\0\0\0\0\0\xd0\x01\0\0\0\0\0\0\0\x10\0\0\0\0\0\0\x02\0\0\0\x06\0\0\0h\x03\0\0\
    \0\0\0\0h\x13@\0\0\0\0\0h\x13@\0\0\0\0\0\x80\x01\0\0\0\0\0\0\x80\x01\0\0\0\0\0\0\x08\0\0\0\0\0\0\0/lib64/ld-li\
    nux-x86-64.so.2\0\0\0\0\0\x03\0\0\0\x07\0\0\0\x03\0\0\0\x06\0\0\0\x05\0\0\0\0\0\0\0\0\0\0\0\0\0\0\0\0\0\0\0\
    \x02\0\0\0\x01\0\0\0\x04\0\0\0\0\0\0\0\0\0\0\0\0\0\0\0\0\0\0\0\0\0\0\0\0\0\0\0\x01\0\0\0\x16\0\0\0\0\0\0\0\0\0\
    \0\0\0\0\0\0\0\0\0\0\x03\0\0\0\x12\0\0\0\0\0\0\0\0\0\0\0\0\0\0\0\0\0\0\0\x05\0\0\0\x12\0\0\0\0\0\0\0\0\0\0\0\0\
    \0\0\0\0\0\0\0\x07\0\0\0\x12\0\0\0\0\0\0\0\0\0\0\0\0\0\0\0\0\0\0\0\x11\0\0\0 \0\0\0\0\0\0\0\0\0\0\0\0\0\0\0\0\
    \0\0\0\x09\0\0\0\x11\0\x0c\0(\x15@\0\0\0\0\0\x10\0\0\0\0\0\0\0\0t\0p\0f\0g\0v\0b\0a\0.\0w\0\0\0\0\0\0\xe8\x14@\
    \0\0\0\0\0\x12\0\0\0\x01\0\0\0\0\0\0\0\0\0\0\0\xf0\x14@\0\0\0\0\0\x06\0\0\0\x02\0\0\0\0\0\0\0\0\0\0\0\xf8\x14@\
    \0\0\0\0\0\x06\0\0\0\x05\0\0\0\0\0\0\0\0\0\0\0(\x15@\0\0\0\0\0\x05\0\0\0\x06\0\0\0\0\0\0\0\0\0\0\0\x18\x15@\0\
    \0\0\0\0\x07\0\0\0\x03\0\0\0\0\0\0\0\0\0\0\0 \x15@\0\0\0\0\0\x07\0\0\0\x04\0\0\0\0\0\0\0\0\0\0\0\0\0\0\0\0\0\0\
    \0\xff5\x02\x12\0\0\xff%\x04\x12\0\0\x0f\x1f@\0\xff%\x02\x12\0\0h\0\0\0\0\xe9\xe0\xff\xff\xff\xff%\xfa\x11\0\0\
    h\x01\0\0\0\xe9\xd0\xff\xff\xff\xe8\xdb\xff\xff\xff\xe8\xe6\xff\xff\xff\x8b\x05\xe8\x11\0\0H\x8b\x05\xb1\x11\0\
    \0H\x8b\x05\xa2\x11\0\0dH\x8b\x04%\0\0\0\0H\x03\x05\x8a\x11\0\0\xb8<\0\0\01\xff\x0f\x05\0\x01\0\0\0\0\0\0\0\
    \x0b\0\0\0\0\0\0\0\x01\0\0\0\0\0\0\0\x0d\0\0\0\0\0\0\0\x1d\0\0\0\0\0\0\0\x0f\0\0\0\0\0\0\0\x04\0\0\0\0\0\0\0x\
    \x01@\0\0\0\0\0\x05\0\0\0\0\0\0\0P\x02@\0\0\0\0\0\x06\0\0\0\0\0\0\0\xa8\x01@\0\0\0\0\0\x0a\0\0\0\0\0\0\0\x13\0\
    \0\0\0\0\0\0\x0b\0\0\0\0\0\0\0\x18\0\0\0\0\0\0\0\x15\0\0\0\0\0\0\0\0\0\0\0\0\0\0\0\x03\0\0\0\0\0\0\0\0\x15@\0\
    \0\0\0\0\x02\0\0\0\0\0\0\00\0\0\0\0\0\0\0\x14\0\0\0\0\0\0\0\x07\0\0\0\0\0\0\0\x17\0\0\0\0\0\0\0\xc8\x02@\0\0\0\
    \0\0\x07\0\0\0\0\0\0\0h\x02@\0\0\0\0\0\x08\0\0\0\0\0\0\0`\0\0\0\0\0\0\0\x09\0\0\0\0\0\0\0\x18\0\0\0\0\0\0\0\
    \x1e\0\0\0\0\0\0\0\x08\0\0\0\0\0\0\0\xfb\xff\xffo\0\0\0\0\x01\0\0\0\0\0\0\0\0\0\0\0\0\0\0\0\0\0\0\0\0\0\0\0\0\
    \0\0\0\0\0\0\0\0\0\0\0\0\0\0\0\0\0\0\0\0\0\0\0\0\0\0\0\0\0\0\0\0\0\0\0\0\0\0\0\0\0\0\0\0\0\0\0\0\0\0\0\0\0\0\0\
    \0\0\0\0\0\0\0\0\0\0\0\0\0\0\0\0\0\0\0\0\0\0\0\0\0\0\0\0\0\0\0\0\0\0\0\0\0\0\0\0\0\0\0\0\0\0\0\0h\x13@\0\0\0\0\
    \0\0\0\0\0\0\0\0\0\0\0\0\0\0\0\0\0\x16\x03@\0\0\0\0\0&\x03@\0\0\0\0\0";

/// The library `a`.
#[rattlefmt::skip]
const A: &[u8] =
    b"\x7fELF\x02\x01\x01\0\0\0\0\0\0\0\0\0\x03\0>\0\x01\0\0\0\0\0\0\0\0\0\0\0@\0\0\0\0\0\0\0\xa0\x03\0\0\0\0\0\0\0\
    \0\0\0@\08\0\x04\0@\0\x0a\0\x09\0\x01\0\0\0\x05\0\0\0\0\0\0\0\0\0\0\0\0\0\0\0\0\0\0\0\0\0\0\0\0\0\0\0\x1a\x02\
    \0\0\0\0\0\0\x1a\x02\0\0\0\0\0\0\0\x10\0\0\0\0\0\0\x01\0\0\0\x06\0\0\0\x1a\x02\0\0\0\0\0\0\x1a\x12\0\0\0\0\0\0\
    \x1a\x12\0\0\0\0\0\06\x01\0\0\0\0\0\06\x01\0\0\0\0\0\0\0\x10\0\0\0\0\0\0\x02\0\0\0\x06\0\0\00\x02\0\0\0\0\0\00\
    \x12\0\0\0\0\0\00\x12\0\0\0\0\0\0\x10\x01\0\0\0\0\0\0\x10\x01\0\0\0\0\0\0\x08\0\0\0\0\0\0\0\x07\0\0\0\x04\0\0\
    \0\x1a\x02\0\0\0\0\0\0\x1a\x12\0\0\0\0\0\0\x1a\x12\0\0\0\0\0\0\x10\0\0\0\0\0\0\0\x10\0\0\0\0\0\0\0\x01\0\0\0\0\
    \0\0\0\x03\0\0\0\x01\0\0\0\x01\0\0\0\x06\0\0\0\0H \x0b\0\0\0\0\x01\0\0\0\x03\0\0\0\x05\0\0\0\x0a\xb6\x02\0\x0f\
    \xb6\x02\0\x14\xb6\x02\0\x1b\xb6\x02\0\x19\xb6\x02\0\0\0\0\0\0\0\0\0\0\0\0\0\0\0\0\0\0\0\0\0\0\0\0\0\x01\0\0\0\
    \x12\0\x05\0\x10\x02\0\0\0\0\0\0\x01\0\0\0\0\0\0\0\x07\0\0\0\x1a\0\x05\0\x12\x02\0\0\0\0\0\0\x08\0\0\0\0\0\0\0\
    \x09\0\0\0\x12\0\x05\0\x11\x02\0\0\0\0\0\0\x01\0\0\0\0\0\0\0\x03\0\0\0\x11\0\x08\0@\x13\0\0\0\0\0\0\x10\0\0\0\
    \0\0\0\0\x05\0\0\0\x16\0\x06\0\x08\0\0\0\0\0\0\0\x08\0\0\0\0\0\0\0\0f\0v\0t\0i\0p\0a\0\0\0\0@\x13\0\0\0\0\0\0\
    \x01\0\0\0\x01\0\0\0\0\0\0\0\0\0\0\0\xc3\xc3H\x8d\x05\xf7\xff\xff\xff\xc3U\0\0\0\0\0\0\0f\0\0\0\0\0\0\0\0\0\0\
    \0\0\0\x0e\0\0\0\0\0\0\0\x0b\0\0\0\0\0\0\0\xf5\xfe\xffo\0\0\0\0 \x01\0\0\0\0\0\0\x05\0\0\0\0\0\0\0\xe8\x01\0\0\
    \0\0\0\0\x06\0\0\0\0\0\0\0X\x01\0\0\0\0\0\0\x0a\0\0\0\0\0\0\0\x0d\0\0\0\0\0\0\0\x0b\0\0\0\0\0\0\0\x18\0\0\0\0\
    \0\0\0\x07\0\0\0\0\0\0\0\xf8\x01\0\0\0\0\0\0\x08\0\0\0\0\0\0\0\x18\0\0\0\0\0\0\0\x09\0\0\0\0\0\0\0\x18\0\0\0\0\
    \0\0\0\x1e\0\0\0\0\0\0\0\x08\0\0\0\0\0\0\0\xfb\xff\xffo\0\0\0\0\x01\0\0\0\0\0\0\0\0\0\0\0\0\0\0\0\0\0\0\0\0\0\
    \0\0\0\0\0\0\0\0\0\0\0\0\0\0\0\0\0\0\0\0\0\0\0\0\0\0\0\0\0\0\0\0\0\0\0\0\0\0\0\0\0\0\0\0\0\0\0\0\0\0\0\0\0\0\0\
    \0\0\0\0\0\0\0\0\0\0\0\0\0\0\0\0\0\0\0\0\0\0\0\0\0\0\0\0\0\0\0\0\0\0\0w\0\0\0\0\0\0\0\0.shstrtab\0.gnu.hash\0.\
    dynsym\0.dynstr\0.rela.dyn\0.text\0.tdata\0.dynamic\0.data\0\0\0\0\0\0\0\0\0\0\0\0\0\0\0\0\0\0\0\0\0\0\0\0\0\0\
    \0\0\0\0\0\0\0\0\0\0\0\0\0\0\0\0\0\0\0\0\0\0\0\0\0\0\0\0\0\0\0\0\0\0\0\0\0\0\0\0\0\0\0\0\x0b\0\0\0\xf6\xff\xff\
    o\x02\0\0\0\0\0\0\0 \x01\0\0\0\0\0\0 \x01\0\0\0\0\0\08\0\0\0\0\0\0\0\x02\0\0\0\0\0\0\0\x08\0\0\0\0\0\0\0\0\0\0\
    \0\0\0\0\0\x15\0\0\0\x0b\0\0\0\x02\0\0\0\0\0\0\0X\x01\0\0\0\0\0\0X\x01\0\0\0\0\0\0\x90\0\0\0\0\0\0\0\x03\0\0\0\
    \x01\0\0\0\x08\0\0\0\0\0\0\0\x18\0\0\0\0\0\0\0\x1d\0\0\0\x03\0\0\0\x02\0\0\0\0\0\0\0\xe8\x01\0\0\0\0\0\0\xe8\
    \x01\0\0\0\0\0\0\x0d\0\0\0\0\0\0\0\0\0\0\0\0\0\0\0\x01\0\0\0\0\0\0\0\0\0\0\0\0\0\0\0%\0\0\0\x04\0\0\0\x02\0\0\
    \0\0\0\0\0\xf8\x01\0\0\0\0\0\0\xf8\x01\0\0\0\0\0\0\x18\0\0\0\0\0\0\0\x02\0\0\0\0\0\0\0\x08\0\0\0\0\0\0\0\x18\0\
    \0\0\0\0\0\0/\0\0\0\x01\0\0\0\x06\0\0\0\0\0\0\0\x10\x02\0\0\0\0\0\0\x10\x02\0\0\0\0\0\0\x0a\0\0\0\0\0\0\0\0\0\
    \0\0\0\0\0\0\x01\0\0\0\0\0\0\0\0\0\0\0\0\0\0\05\0\0\0\x01\0\0\0\x03\x04\0\0\0\0\0\0\x1a\x12\0\0\0\0\0\0\x1a\
    \x02\0\0\0\0\0\0\x10\0\0\0\0\0\0\0\0\0\0\0\0\0\0\0\x01\0\0\0\0\0\0\0\0\0\0\0\0\0\0\0<\0\0\0\x06\0\0\0\x03\0\0\
    \0\0\0\0\00\x12\0\0\0\0\0\00\x02\0\0\0\0\0\0\x10\x01\0\0\0\0\0\0\x03\0\0\0\0\0\0\0\x08\0\0\0\0\0\0\0\x10\0\0\0\
    \0\0\0\0E\0\0\0\x01\0\0\0\x03\0\0\0\0\0\0\0@\x13\0\0\0\0\0\0@\x03\0\0\0\0\0\0\x10\0\0\0\0\0\0\0\0\0\0\0\0\0\0\
    \0\x01\0\0\0\0\0\0\0\0\0\0\0\0\0\0\0\x01\0\0\0\x03\0\0\0\0\0\0\0\0\0\0\0\0\0\0\0\0\0\0\0P\x03\0\0\0\0\0\0K\0\0\
    \0\0\0\0\0\0\0\0\0\0\0\0\0\x01\0\0\0\0\0\0\0\0\0\0\0\0\0\0\0";

/// The library `b`.
#[rattlefmt::skip]
const B: &[u8] =
    b"\x7fELF\x02\x01\x01\0\0\0\0\0\0\0\0\0\x03\0>\0\x01\0\0\0\0\0\0\0\0\0\0\0@\0\0\0\0\0\0\0\0\0\0\0\0\0\0\0\0\0\0\
    \0@\08\0\x03\0@\0\0\0\0\0\x01\0\0\0\x05\0\0\0\0\0\0\0\0\0\0\0\0\0\0\0\0\0\0\0\0\0\0\0\0\0\0\0\xc1\x02\0\0\0\0\
    \0\0\xc1\x02\0\0\0\0\0\0\0\x10\0\0\0\0\0\0\x01\0\0\0\x06\0\0\0\xc8\x02\0\0\0\0\0\0\xc8\x12\0\0\0\0\0\0\xc8\x12\
    \0\0\0\0\0\0\xa8\x01\0\0\0\0\0\0\xa8\x01\0\0\0\0\0\0\0\x10\0\0\0\0\0\0\x02\0\0\0\x06\0\0\0\xc8\x02\0\0\0\0\0\0\
    \xc8\x12\0\0\0\0\0\0\xc8\x12\0\0\0\0\0\0`\x01\0\0\0\0\0\0`\x01\0\0\0\0\0\0\x08\0\0\0\0\0\0\0\x03\0\0\0\x07\0\0\
    \0\x05\0\0\0\x06\0\0\0\x01\0\0\0\0\0\0\0\0\0\0\0\0\0\0\0\0\0\0\0\x02\0\0\0\x03\0\0\0\x04\0\0\0\0\0\0\0\0\0\0\0\
    \0\0\0\0\0\0\0\0\0\0\0\0\0\0\0\0\x0b\0\0\0\x16\0\0\0\0\0\0\0\0\0\0\0\0\0\0\0\0\0\0\0\x01\0\0\0\x12\x03\x07\0\
    \xc0\x02\0\0\0\0\0\0\x01\0\0\0\0\0\0\0\x05\0\0\0\x12\0\0\0\0\0\0\0\0\0\0\0\0\0\0\0\0\0\0\0\x03\0\0\0\x12\0\x07\
    \0\xa0\x02\0\0\0\0\0\0 \0\0\0\0\0\0\0\x07\0\0\0\x12\0\0\0\0\0\0\0\0\0\0\0\0\0\0\0\0\0\0\0\x09\0\0\0\x11\0\0\0\
    \0\0\0\0\0\0\0\0\0\0\0\0\0\0\0\0\0p\0g\0f\0i\0v\0t\0a\0b\0\0\0\0\0\0\0\0(\x14\0\0\0\0\0\0\x10\0\0\0\x01\0\0\0\
    \0\0\0\0\0\0\0\00\x14\0\0\0\0\0\0\x11\0\0\0\x01\0\0\0\0\0\0\0\0\0\0\08\x14\0\0\0\0\0\0\x06\0\0\0\x06\0\0\0\0\0\
    \0\0\0\0\0\0h\x14\0\0\0\0\0\0\x01\0\0\0\x02\0\0\0\0\0\0\0\0\0\0\0X\x14\0\0\0\0\0\0\x07\0\0\0\x03\0\0\0\0\0\0\0\
    \0\0\0\0`\x14\0\0\0\0\0\0\x07\0\0\0\x05\0\0\0\0\0\0\0\0\0\0\0\0\0\0\0\0\0\0\0\xff5\xd2\x11\0\0\xff%\xd4\x11\0\
    \0\x0f\x1f@\0\xff%\xd2\x11\0\0h\0\0\0\0\xe9\xe0\xff\xff\xff\xff%\xca\x11\0\0h\x01\0\0\0\xe9\xd0\xff\xff\xff\
    \xe8\xdb\xff\xff\xff\xe8\xe6\xff\xff\xffH\x8d\x05\x0f\0\0\0H\x8b\x05\x80\x11\0\0H\x8d=i\x11\0\0\xc3\xc3\0\0\0\
    \0\0\0\0\x01\0\0\0\0\0\0\0\x0d\0\0\0\0\0\0\0\x0e\0\0\0\0\0\0\0\x0f\0\0\0\0\0\0\0\x04\0\0\0\0\0\0\0\xe8\0\0\0\0\
    \0\0\0\x05\0\0\0\0\0\0\0\xc0\x01\0\0\0\0\0\0\x06\0\0\0\0\0\0\0\x18\x01\0\0\0\0\0\0\x0a\0\0\0\0\0\0\0\x11\0\0\0\
    \0\0\0\0\x0b\0\0\0\0\0\0\0\x18\0\0\0\0\0\0\0\x03\0\0\0\0\0\0\0@\x14\0\0\0\0\0\0\x02\0\0\0\0\0\0\00\0\0\0\0\0\0\
    \0\x14\0\0\0\0\0\0\0\x07\0\0\0\0\0\0\0\x17\0\0\0\0\0\0\08\x02\0\0\0\0\0\0\x07\0\0\0\0\0\0\0\xd8\x01\0\0\0\0\0\
    \0\x08\0\0\0\0\0\0\0`\0\0\0\0\0\0\0\x09\0\0\0\0\0\0\0\x18\0\0\0\0\0\0\0\x1e\0\0\0\0\0\0\0\x08\0\0\0\0\0\0\0\
    \xfb\xff\xffo\0\0\0\0\x01\0\0\0\0\0\0\0\0\0\0\0\0\0\0\0\0\0\0\0\0\0\0\0\0\0\0\0\0\0\0\0\0\0\0\0\0\0\0\0\0\0\0\
    \0\0\0\0\0\0\0\0\0\0\0\0\0\0\0\0\0\0\0\0\0\0\0\0\0\0\0\0\0\0\0\0\0\0\0\0\0\0\0\0\0\0\0\0\0\0\0\0\0\0\0\0\0\0\0\
    \0\0\0\0\0\0\0\0\0\0\0\0\0\0\0\0\0\0\0\0\0\0\0\0\0\0\0\0\0\0\xc8\x12\0\0\0\0\0\0\0\0\0\0\0\0\0\0\0\0\0\0\0\0\0\
    \0\x86\x02\0\0\0\0\0\0\x96\x02\0\0\0\0\0\0\0\0\0\0\0\0\0\0";

/// The places of the images in the input.
const MAIN_PLACE: usize = 0;

const A_PLACE: usize = 1;

const B_PLACE: usize = 2;

/// An image with bytes replaced, by their offsets.
fn changed(alloc: Global, image: &[u8], place: usize, edits: &[Edit]) -> Result<Bytes, Fail> {
    let mut bytes = Vec::from_slice(alloc, image)?;
    for (edited, at, byte) in edits {
        if *edited == place {
            *bytes.get_mut(*at).ok_or("no such byte")? = *byte;
        }
    }
    Ok(Bytes::from_vec(bytes))
}

/// A byte of one of the images: the image's place, the byte's offset, and its value.
type Edit = (usize, usize, u8);

/// The bases of the libraries.
const A_BASE: u64 = 0x20_0000;

const B_BASE: u64 = 0x10_0000;

/// The three images, with bytes replaced. The thread-local data of a are 16 bytes before the thread pointer.
fn images(alloc: Global, edits: &[Edit], b_base: u64) -> Result<Vec<NamedImage>, Fail> {
    let mut images = Vec::new(alloc);
    let rows: [(&[u8], &[u8], u64, i64); 3] = [
        (b"m", MAIN, 0, 0),
        (b"a", A, A_BASE, -16),
        (b"b", B, b_base, 0),
    ];
    for (name, image, base, distance) in rows {
        let place = images.len();
        images.push(NamedImage {
            name: Bytes::from_vec(Vec::from_slice(alloc, name)?),
            bytes: changed(alloc, image, place, edits)?,
            base,
            distance,
        })?;
    }
    Ok(images)
}

/// The answer of the IFUNC's resolver.
const ANSWERS: &[(u64, u64)] = &[(A_BASE + 0x212, 0x5000)];

/// The images bound to each other. There is at least one.
fn bind(
    alloc: Global,
    images: &[NamedImage],
    answers: &[(u64, u64)],
) -> Result<Result<Bound, BindFault>, Fail> {
    if images.is_empty() {
        Err("no image")?;
    }
    Ok(bind_images(alloc, images, answers))
}

/// What images are bound with replaced bytes.
fn bound(alloc: Global, edits: &[Edit]) -> Result<Bound, Fail> {
    let images = images(alloc, edits, B_BASE)?;
    let bound = bind(alloc, images.as_slice(), ANSWERS)?;
    Ok(bound.ok().ok_or("not bound")?)
}

/// Replaced bytes, and the order.
const ORDERS: &[(&[Edit], &[usize])] = &[
    (&[], &[0, 2, 1]),
    // The program needs a first.
    (
        &[(MAIN_PLACE, 0x370, 0xd), (MAIN_PLACE, 0x380, 0xb)],
        &[0, 1, 2],
    ),
    // It needs b twice, and not a.
    (&[(MAIN_PLACE, 0x380, 0xb)], &[0, 2, 1]),
    // b needs itself; b needs the program; a needs itself, by its own name; a needs b.
    (&[(B_PLACE, 0x1cd, b'b')], &[0, 2, 1]),
    (&[(B_PLACE, 0x1cd, b'm')], &[0, 2, 1]),
    (&[(A_PLACE, 0x230, 1)], &[0, 2, 1]),
    (&[(A_PLACE, 0x230, 1), (A_PLACE, 0x1f3, b'b')], &[0, 2, 1]),
];

#[test]
fn orders(rt: HostRuntime) -> Result<(), Fail> {
    for (edits, order) in ORDERS {
        let bound = bound(rt.alloc(), edits)?;
        assert!(rt; bound.order.as_slice() == *order, "{edits:?}");
    }
    Ok(())
}

/// The binds of each image, in the order main, b, a: the place of the definition's image in the order, and its index there.
const BINDS: [&[Option<(usize, u64)>]; 3] = [
    // t, p, f, g, w, v
    &[
        Some((2, 5)),
        Some((1, 2)),
        Some((2, 1)),
        Some((1, 4)),
        None,
        Some((0, 6)),
    ],
    // t, p, f, g, i, v
    &[
        Some((2, 5)),
        Some((1, 2)),
        Some((2, 1)),
        Some((1, 4)),
        Some((2, 2)),
        Some((0, 6)),
    ],
    // f, i, p, v, t
    &[
        Some((2, 1)),
        Some((2, 2)),
        Some((1, 2)),
        Some((0, 6)),
        Some((2, 5)),
    ],
];

/// Whether symbols are bound to these definitions.
fn are_binds(binds: &[Option<Definition>], wanted: &[Option<(usize, u64)>]) -> bool {
    let pairs = binds.iter().map(|bind| bind.map(|d| (d.image, d.index)));
    pairs.eq(wanted.iter().copied())
}

/// The place of an image in the order, an address, and the word there.
const WORDS: &[(usize, u64, u64)] = &[
    // The program: the offset of t from the thread pointer, p of b, nothing for w, f of a, g of b, and the copy of v of a.
    (0, 0x40_14e8, 0xffff_ffff_ffff_fff8),
    (0, 0x40_14f0, B_BASE + 0x2c0),
    (0, 0x40_14f8, 0),
    (0, 0x40_1518, A_BASE + 0x210),
    (0, 0x40_1520, B_BASE + 0x2a0),
    (0, 0x40_1528, A_BASE + 0x210),
    (0, 0x40_1530, 0x77),
    // b: the module and the offset of t, v of the program, f of a, what the resolver of i answers, and its own p.
    (1, B_BASE + 0x1428, 3),
    (1, B_BASE + 0x1430, 8),
    (1, B_BASE + 0x1438, 0x40_1528),
    (1, B_BASE + 0x1458, A_BASE + 0x210),
    (1, B_BASE + 0x1460, 0x5000),
    (1, B_BASE + 0x1468, B_BASE + 0x2c0),
    // a: v, which has the address of f.
    (2, A_BASE + 0x1340, A_BASE + 0x210),
];

/// Where the call at an address of memory leads.
fn call_target(memory: &Memory, address: u64) -> Option<u64> {
    match step_x86_64(memory, address)? {
        Effect {
            deed: Deed::Call,
            value: Value::Number(target),
            ..
        } => Some(target),
        _ => None,
    }
}

#[test]
fn binds_and_memories(rt: HostRuntime) -> Result<(), Fail> {
    let bound = bound(rt.alloc(), &[])?;
    for (binds, wanted) in bound.binds.as_slice().iter().zip(BINDS) {
        assert!(rt; are_binds(binds.as_slice(), wanted), "{wanted:?}");
    }
    assert!(rt; bound.binds.len() == 3 && bound.worlds.len() == 3);
    for (place, address, word) in WORDS {
        let memory = bound.memories.as_slice().get(*place).ok_or("no memory")?;
        assert!(rt; memory.word(*address) == Some(*word), "{address}");
    }
    // The program's first instruction calls f: by its stub it reaches f of a, and not b's p.
    let program = bound.memories.as_slice().first().ok_or("no memory")?;
    let stub = call_target(program, 0x40_0330).ok_or("no call")?;
    assert!(rt; reaches(program, stub, A_BASE + 0x210) && !reaches(program, stub, B_BASE + 0x2c0));
    Ok(())
}

/// Replaced bytes, the place in the order of an image, one of its symbols, and its definition.
const CHANGED_BINDS: &[(&[Edit], usize, usize, Option<(usize, u64)>)] = &[
    // If a is before b, the program's p is that of a. That of b is its own, unless its visibility is the default.
    (
        &[(MAIN_PLACE, 0x370, 0xd), (MAIN_PLACE, 0x380, 0xb)],
        0,
        2,
        Some((1, 3)),
    ),
    (
        &[(MAIN_PLACE, 0x370, 0xd), (MAIN_PLACE, 0x380, 0xb)],
        2,
        2,
        Some((2, 2)),
    ),
    (
        &[
            (MAIN_PLACE, 0x370, 0xd),
            (MAIN_PLACE, 0x380, 0xb),
            (B_PLACE, 0x14d, 0),
        ],
        2,
        2,
        Some((1, 3)),
    ),
    // An entry of section 0 is no definition.
    (
        &[(B_PLACE, 0x14d, 0), (B_PLACE, 0x14e, 0)],
        0,
        2,
        Some((2, 3)),
    ),
    // A weak symbol, by its name, that another image defines.
    (&[(MAIN_PLACE, 0x261, b'i')], 0, 5, Some((2, 2))),
];

#[test]
fn visibility_and_weak(rt: HostRuntime) -> Result<(), Fail> {
    for (edits, place, index, wanted) in CHANGED_BINDS {
        let bound = bound(rt.alloc(), edits)?;
        let binds = bound.binds.as_slice().get(*place).ok_or("no image")?;
        let bind = index
            .checked_sub(1)
            .and_then(|at| binds.as_slice().get(at))
            .ok_or("no symbol")?;
        assert!(rt; bind.map(|d| (d.image, d.index)) == *wanted, "{edits:?}");
    }
    Ok(())
}

/// Replaced bytes, the base of b, the answers of resolvers, and why the images are not bound.
const FAULTS: &[(&[Edit], u64, &[(u64, u64)], BindFault)] = &[
    (
        &[(MAIN_PLACE, 0x25b, b'c')],
        B_BASE,
        ANSWERS,
        BindFault::Missing {
            image: 0,
            needed: 0,
        },
    ),
    (
        &[(B_PLACE, 0x1cd, b'c')],
        B_BASE,
        ANSWERS,
        BindFault::Missing {
            image: 2,
            needed: 0,
        },
    ),
    // b has a COPY entry for v.
    (
        &[(B_PLACE, 0x210, 5)],
        B_BASE,
        ANSWERS,
        BindFault::CopyInLibrary { image: 2, index: 6 },
    ),
    // No image defines the program's g by another name; w is not weak; only the program defines v.
    (
        &[(MAIN_PLACE, 0x257, b'h')],
        B_BASE,
        ANSWERS,
        BindFault::Undefined { image: 0, index: 4 },
    ),
    (
        &[(MAIN_PLACE, 0x224, 0x10)],
        B_BASE,
        ANSWERS,
        BindFault::Undefined { image: 0, index: 5 },
    ),
    (
        &[(A_PLACE, 0x1eb, b'x')],
        B_BASE,
        ANSWERS,
        BindFault::Undefined { image: 0, index: 6 },
    ),
    (
        &[],
        B_BASE,
        &[],
        BindFault::NoAnswer {
            value: A_BASE + 0x212,
        },
    ),
    (&[], A_BASE, ANSWERS, BindFault::Overlap { address: A_BASE }),
    (
        &[(A_PLACE, 0, 0)],
        B_BASE,
        ANSWERS,
        BindFault::LookUp {
            image: 1,
            fault: ImageFault::NotElf,
        },
    ),
    // v of a has a byte that is not loaded; b has an entry of an unknown type.
    (
        &[(A_PLACE, 0x1c8, 17)],
        B_BASE,
        ANSWERS,
        BindFault::Load {
            image: 1,
            fault: LoadFault::Unloaded {
                address: A_BASE + 0x1350,
            },
        },
    ),
    (
        &[(B_PLACE, 0x1e0, 0x77)],
        B_BASE,
        ANSWERS,
        BindFault::Load {
            image: 2,
            fault: LoadFault::UnknownDynamic { number: 0x77 },
        },
    ),
];

/// Whether two faults are the same.
fn are_same(found: BindFault, wanted: BindFault) -> bool {
    match (found, wanted) {
        (BindFault::Load { image: i, fault: f }, BindFault::Load { image: j, fault: g }) => i == j
            && f == g,
        (BindFault::LookUp { image: i, fault: f }, BindFault::LookUp { image: j, fault: g }) => i
            == j
            && f == g,
        (
            BindFault::Missing {
                image: i,
                needed: m,
            },
            BindFault::Missing {
                image: j,
                needed: n,
            },
        ) => i == j && m == n,
        (
            BindFault::CopyInLibrary { image: i, index: m },
            BindFault::CopyInLibrary { image: j, index: n },
        ) => i == j && m == n,
        (
            BindFault::Undefined { image: i, index: m },
            BindFault::Undefined { image: j, index: n },
        ) => i == j && m == n,
        (BindFault::NoAnswer { value: v }, BindFault::NoAnswer { value: w }) => v == w,
        (BindFault::Overlap { address: a }, BindFault::Overlap { address: b }) => a == b,
        _ => false,
    }
}

#[test]
fn faults(rt: HostRuntime) -> Result<(), Fail> {
    for (edits, base, answers, wanted) in FAULTS {
        let images = images(rt.alloc(), edits, *base)?;
        let found = bind(rt.alloc(), images.as_slice(), answers)?
            .err()
            .ok_or("bound")?;
        assert!(rt; are_same(found, *wanted), "{edits:?}");
    }
    Ok(())
}

/// What is read of an image: the offsets of the names that it needs, the number of its symbols, the address of its thread-local
/// data, and the index of its definition of `f`.
type Imports = (&'static [u64], u64, u64, Option<u64>);

/// Whether these are read of an image.
fn has_imports(alloc: Global, image: &[u8], wanted: &Imports) -> Result<bool, Fail> {
    let Ok(tables) = find_image_tables(image) else {
        return Ok(false);
    };
    let needed = needed_offsets(alloc, image, &tables)?;
    Ok(
        needed.as_slice() == wanted.0
            && symbol_count(image, &tables).ok() == Some(wanted.1)
            && thread_start(image, &tables) == wanted.2
            && find_definition(image, &tables, b"f").ok() == Some(wanted.3),
    )
}

#[test]
fn imports(rt: HostRuntime) -> Result<(), Fail> {
    assert!(rt; has_imports(rt.alloc(), MAIN, &(&[0xb, 0xd], 7, 0, None))?);
    assert!(rt; has_imports(rt.alloc(), B, &(&[0xd], 7, 0, None))?);
    assert!(rt; has_imports(rt.alloc(), A, &(&[], 6, 0x121a, Some(1)))?);
    // Without its hash table a defines no name for others, and the section headers have the size of its symbol table.
    let image = changed(rt.alloc(), A, A_PLACE, &[(A_PLACE, 0x240, 0xf6)])?;
    assert!(rt; has_imports(rt.alloc(), image.as_slice(), &(&[], 6, 0x121a, None))?);
    let edits = [(A_PLACE, 0x240, 0xf6), (A_PLACE, 0x3c, 0)];
    let image = changed(rt.alloc(), A, A_PLACE, &edits)?;
    assert!(rt; has_imports(rt.alloc(), image.as_slice(), &(&[], 0, 0x121a, None))?);
    Ok(())
}

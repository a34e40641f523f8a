//! The generated script, and the line with its size.

use jt_gen::{generated_script, size_line};
use jt_words::GenOptions;
use std::test::Fail;

const TWO_PRODUCERS: &str = "\
function produce(c, total, k)
    for j in 1:1000
        put!(c, k)
        Threads.atomic_add!(total, 1)
    end
end
function sum_all(c)
    s = 0
    for x in c
        s = s + x
    end
    s
end
c = Channel{Int64}(32)
total = Threads.Atomic{Int64}(0)
reader = Threads.@spawn sum_all(c)
@sync for k in 1:2
    Threads.@spawn produce(c, total, k)
end
close(c)
println(total[])
println(fetch(reader))
";

const TWO: GenOptions = GenOptions {
    size: 2,
    text: true,
};

const EIGHTY: GenOptions = GenOptions {
    size: 80,
    text: false,
};

#[test]
fn a_size_is_a_number_of_producers(rt: HostRuntime) -> Result<(), Fail> {
    let script = generated_script(rt.alloc(), TWO)?;
    assert!(rt; script.as_str() == TWO_PRODUCERS);
    Ok(())
}

#[test]
fn a_size_has_a_line(rt: HostRuntime) -> Result<(), Fail> {
    let line = size_line(rt.alloc(), EIGHTY)?;
    assert!(rt; line.as_str() == "size 80\n");
    Ok(())
}

// The calls that may want memory, each with ample memory: its answer is the value, and not the refusal.
use file_tree::Tree;
use frang_base::{
    Line, Name, NameList, NoMemory, Op, OpNo, Patch, Patches, Path, Reply, Said, Script, ServerId,
    Text, What,
};
use reply_text::write_line;
use std::alloc::Global;
use std::process::Abort;
use std::test::Fail;
use tree_model::{History, has_proper_targets, has_times, tree_left};

fn push_name(path: &mut Path, bytes: &[u8]) -> Result<(), NoMemory> {
    match Name::of(bytes) {
        Some(name) => path.push(name),
        None => Ok(()),
    }
}

fn create(alloc: Global, name: &[u8]) -> Result<Op, NoMemory> {
    let mut path = Path::new(alloc);
    push_name(&mut path, name)?;
    Ok(Op::Create { path })
}

fn create_a(alloc: Global) -> Result<Op, NoMemory> {
    create(alloc, b"a")
}

// A text of two bytes, one more and the others.
fn text_of(alloc: Global, first: &str, next: u8, last: &str) -> Result<Text, NoMemory> {
    let mut text = Text::of(alloc, first.as_bytes())?;
    text.push(next)?;
    text.append(last.as_bytes())?;
    Ok(text)
}

fn is_copied(text: &Text, wanted: &str) -> Result<bool, NoMemory> {
    let copy = text.try_copy()?;
    Ok(copy.as_slice() == wanted.as_bytes())
}

fn text_is_copied(alloc: Global) -> Result<bool, NoMemory> {
    let text = text_of(alloc, "ab", b'c', "de")?;
    is_copied(&text, "abcde")
}

// The number of names in a copy of the path.
fn names_in_copy(path: &Path) -> Result<usize, NoMemory> {
    let copy = path.try_copy()?;
    Ok(copy.len())
}

fn has_one_name(op: &Op) -> Result<bool, NoMemory> {
    match op {
        Op::Create { path } => Ok(names_in_copy(path)? == 1),
        _ => Ok(false),
    }
}

fn is_copied_whole(op: &Op) -> Result<bool, NoMemory> {
    let copy = op.try_copy()?;
    has_one_name(&copy)
}

fn path_is_copied(alloc: Global) -> Result<bool, NoMemory> {
    let op = create_a(alloc)?;
    is_copied_whole(&op)
}

fn list_name(names: &mut NameList, bytes: &[u8]) -> Result<(), NoMemory> {
    match Name::of(bytes) {
        Some(name) => names.push(name),
        None => Ok(()),
    }
}

// A copy of what lists this name alone.
fn names_reply(alloc: Global, name: &[u8]) -> Result<Reply, NoMemory> {
    let mut names = NameList::new(alloc);
    list_name(&mut names, name)?;
    let copy = names.try_copy()?;
    Ok(Reply::Names(copy))
}

fn names_are_copied(alloc: Global) -> Result<bool, NoMemory> {
    let reply = names_reply(alloc, b"a")?;
    let copy = reply.try_copy()?;
    Ok(matches!(&copy, Reply::Names(names) if names.len() == 1))
}

// Patches of which the only one puts these bytes at a place.
fn patches_of(alloc: Global, at: u16, bytes: &[u8]) -> Result<Patches, NoMemory> {
    let mut patches = Patches::new(alloc);
    let bytes = Text::of(alloc, bytes)?;
    patches.push(Patch { at, bytes })?;
    Ok(patches)
}

fn patches_are_copied(alloc: Global) -> Result<bool, NoMemory> {
    let patches = patches_of(alloc, 8, b"ab")?;
    let copy = patches.try_copy()?;
    Ok(matches!(copy.get(0), Some(patch) if patch.at == 8))
}

#[test]
fn lists_are_copied(rt: HostRuntime) -> Result<(), Fail> {
    let alloc = rt.alloc();
    let texts = text_is_copied(alloc)?;
    let paths = path_is_copied(alloc)?;
    let names = names_are_copied(alloc)?;
    let patches = patches_are_copied(alloc)?;
    assert!(rt; texts && paths && names && patches);
    Ok(())
}

// Applies a create.
fn apply_create(tree: &mut Tree, op: &Op, birth: u64) -> Result<Reply, NoMemory> {
    match op {
        Op::Create { .. } => tree.apply(op, OpNo(birth), 0, 0),
        _ => Ok(Reply::Down),
    }
}

fn is_made(tree: &mut Tree, op: &Op, birth: u64) -> Result<bool, NoMemory> {
    let reply = apply_create(tree, op, birth)?;
    Ok(matches!(&reply, Reply::Ok))
}

fn stands(tree: &mut Tree, op: &Op, birth: u64) -> Result<bool, NoMemory> {
    let reply = apply_create(tree, op, birth)?;
    Ok(matches!(&reply, Reply::Exist))
}

// The tree takes the create once.
fn takes_once(tree: &mut Tree, create: &Op) -> Result<bool, NoMemory> {
    let is_made = is_made(tree, create, 1)?;
    let stands = stands(tree, create, 2)?;
    Ok(is_made && stands)
}

fn takes_one_create(alloc: Global, tree: &mut Tree) -> Result<bool, NoMemory> {
    let create = create_a(alloc)?;
    takes_once(tree, &create)
}

fn copy_of_fresh(alloc: Global) -> Result<Tree, NoMemory> {
    let tree = Tree::fresh(alloc, 16)?;
    tree.try_copy()
}

#[test]
fn a_tree_is_changed(rt: HostRuntime) -> Result<(), Fail> {
    let mut tree = copy_of_fresh(rt.alloc())?;
    assert!(rt; takes_one_create(rt.alloc(), &mut tree)?);
    Ok(())
}

fn push_line(script: &mut Script, number: u32, op: Op) -> Result<(), NoMemory> {
    let who = ServerId(0);
    let what = What::Server(op);
    script.push(Line { number, who, what })
}

fn script(alloc: Global) -> Result<Script, NoMemory> {
    let mut script = Script::new(alloc);
    push_line(&mut script, 1, Op::Mount)?;
    push_line(&mut script, 2, create_a(alloc)?)?;
    push_line(&mut script, 3, create_a(alloc)?)?;
    script.try_copy()
}

fn answer(line: u32, reply: Reply) -> Said {
    Said::Answer {
        server: ServerId(0),
        line,
        reply,
    }
}

// What a history leaves of a fresh tree, as it is said.
fn left_tree(alloc: Global, history: &History) -> Result<Vec<u8>, NoMemory> {
    let mut text = Vec::new(alloc);
    if has_proper_targets(history) {
        let tree = tree_left(&Tree::fresh(alloc, 16)?, history)?;
        for line in &tree.lines()? {
            write_line(alloc, line, &mut text)?;
        }
    }
    Ok(text)
}

fn answers(alloc: Global) -> Result<Vec<Said>, NoMemory> {
    let mut said = Vec::new(alloc);
    said.push(answer(1, Reply::Mounted))?;
    said.push(answer(2, Reply::Ok))?;
    said.push(answer(3, Reply::Exist))?;
    Ok(said)
}

// The history leaves a tree with the file, and has four entries once the server's are dropped.
fn leaves_a_tree(rt: &impl Abort, alloc: Global, history: &mut History) -> Result<(), Fail> {
    let text = left_tree(alloc, history)?;
    assert!(rt; text.as_slice() == "= / dir 1\n= /a file 0 1\n".as_bytes());
    history.drop_after(ServerId(0), OpNo(0))?;
    assert!(rt; history.as_slice().len() == 4);
    Ok(())
}

// So does that of a script's answers.
fn lives(rt: &impl Abort, alloc: Global, script: &Script, said: &[Said]) -> Result<(), Fail> {
    assert!(rt; has_times(script));
    let mut history = History::live(alloc, script, 1, said)?;
    leaves_a_tree(rt, alloc, &mut history)
}

#[test]
fn a_history_leaves_a_tree(rt: HostRuntime) -> Result<(), Fail> {
    let said = answers(rt.alloc())?;
    let script = script(rt.alloc())?;
    lives(&rt, rt.alloc(), &script, &said)
}
